//! What a path prints.
ghost use Rattle.std.specs.Prelude.{[], ◌∷◌, ◌++◌, drop};
ghost use Rattle.std.specs.Fmt.{WritesOnOk};
ghost use Rattle.std.specs.List.{flat_map};
ghost use Rattle.garde_report.specs.Path.{path_text, root_text, part_text};

use super::component::Kind;
use super::owned_component::OwnedComponent;
use crate::rc_list::{Front, List};
use std::fmt;

// Writes the text of a path with these components.
pub(super) fn write_path<W: fmt::Write>(
    components: &List<OwnedComponent>,
    f: &mut fmt::Formatter<W>,
) -> fmt::Result
    ensures { WritesOnOk W.write_str_gives f.old result (path_text components.now) f.new }
{
    let Some(root) = components.get(0) else {
        return Ok(());
    };
    write_root(root, f)?;
    write_from(&components.front(), 1, f)
}

// Writes the components from `from` on, each as under another one. It goes down by halves, so that
// a long path needs little of the stack, and it allocates nothing.
fn write_from<W: fmt::Write>(
    components: &Front<'_, OwnedComponent>,
    from: usize,
    f: &mut fmt::Formatter<W>,
) -> fmt::Result
    ensures { WritesOnOk W.write_str_gives f.old result
        (flat_map part_text (drop from components.now)) f.new }
{
    let len = components.len();
    if len <= from {
        return Ok(());
    }
    if len - from == 1 {
        return match components.last() {
            Some(component) => write_below(component, f),
            None => Ok(()),
        };
    }
    let middle = from + (len - from) / 2;
    write_from(&components.first(middle), from, f)?;
    write_from(components, middle, f)
}

// What a component prints under another one.
fn write_below<W: fmt::Write>(component: &OwnedComponent, f: &mut fmt::Formatter<W>) -> fmt::Result
    ensures { WritesOnOk W.write_str_gives f.old result (part_text component.now) f.new }
{
    let text = component.text();
    match component.kind() {
        Kind::Index => write_index(text, f),
        Kind::Key => write_key(text, f),
        Kind::None => f.write_str(text),
    }
}

fn write_index<W: fmt::Write>(text: &str, f: &mut fmt::Formatter<W>) -> fmt::Result
    ensures { WritesOnOk W.write_str_gives f.old result (91 ∷ text.now ++ 93 ∷ []) f.new }
{
    write!(f, "[{text}]")
}

fn write_key<W: fmt::Write>(text: &str, f: &mut fmt::Formatter<W>) -> fmt::Result
    ensures { WritesOnOk W.write_str_gives f.old result (46 ∷ text.now) f.new }
{
    write!(f, ".{text}")
}

// What it prints as the first component.
fn write_root<W: fmt::Write>(component: &OwnedComponent, f: &mut fmt::Formatter<W>) -> fmt::Result
    ensures { WritesOnOk W.write_str_gives f.old result
        (root_text component.now.kind component.now.text) f.new }
{
    match component.kind() {
        Kind::Key => f.write_str(component.text()),
        Kind::Index | Kind::None => write_below(component, f),
    }
}
