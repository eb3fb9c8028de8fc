//! Values that are made where an input gives none.
ghost use Rattle.std.specs.Prelude.{◌≡◌, []};

use crate::duplicate::Duplicate;
use crate::items::Items;
use crate::text_ref::TextRef;
use std::alloc::Global;

/// What makes a value of the type `T`, always the same one: the default of a member. No memory is
/// needed for it.
///
/// A value that can be duplicated makes its like, a `&str` the `TextRef` of its text, and `Empty` the
/// list and the map with no item. For a value of your own type write a maker, a type without fields.
pub trait Makes<T> {
    /// The value.
    ghost made: { Self → T };

    /// Makes the value.
    fn make(&self, alloc: Global) -> T
        ensures { result ≡ made self.now };
}

impl<T: Duplicate> Makes<T> for T {
    ghost made = { λ value. value };

    fn make(&self, _alloc: Global) -> T {
        self.duplicate()
    }
}

impl<'a> Makes<TextRef<'a>> for &'a str {
    ghost made = { λ text. text.now };

    fn make(&self, _alloc: Global) -> TextRef<'a> {
        TextRef::new(*self)
    }
}

/// Makes the `Items` without a value and the `Entries` without a member.
#[derive(Clone, Copy, Debug)]
pub struct Empty;

impl<T> Makes<Items<T>> for Empty {
    ghost made = { λ _. [] };

    fn make(&self, alloc: Global) -> Items<T> {
        Items::new(alloc)
    }
}
