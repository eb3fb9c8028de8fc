//! Values that a default is copied from.
ghost use Rattle.std.specs.Prelude.{◌≡◌};

use crate::text_ref::TextRef;

/// A value of which there can be a second one, which is equal in all, and for which no memory is
/// needed. Each `Copy` type and `TextRef` have it.
pub trait Duplicate: Drop {
    /// A second one.
    fn duplicate(&self) -> Self
        ensures { result ≡ self.now };
}

impl<T: Copy> Duplicate for T {
    fn duplicate(&self) -> T {
        *self
    }
}

impl<'a> Duplicate for TextRef<'a> {
    fn duplicate(&self) -> TextRef<'a> {
        TextRef::new(self.text())
    }
}
