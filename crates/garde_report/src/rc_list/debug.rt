//! What a list prints for debugging.
ghost use Rattle.std.specs.Prelude.{◌-◌, length};

use super::{Front, List};
use std::fmt;

/// The items from the first to the last.
impl<T: fmt::Debug> fmt::Debug for List<T> {
    fn fmt<W: fmt::Write>(&self, f: &mut fmt::Formatter<W>) -> fmt::Result {
        let mut items = f.debug_list();
        show_from(&self.front(), 0, &mut items);
        items.finish()
    }
}

// Shows the items from `from` on. It goes down by halves, so that a long list needs little of the
// stack, and it allocates nothing.
fn show_from<T: fmt::Debug, W: fmt::Write>(
    list: &Front<'_, T>,
    from: usize,
    items: &mut fmt::DebugList<'_, W>,
) {
    let len = list.len();
    if len <= from {
        return;
    }
    if len - from == 1 {
        if let Some(item) = list.last() {
            items.entry(item);
        }
        return;
    }
    let middle = from + (len - from) / 2;
    show_from(&list.first(middle), from, items);
    show_from(list, middle, items);
}
