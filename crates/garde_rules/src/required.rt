//! Values that must be there.
ghost use Rattle.std.specs.Prelude.{◌≡◌, Bool, is_some};
ghost use Rattle.garde_i18n.specs.Datum as datum;
ghost use Rattle.garde_engines.specs.Applies.{Applies};
ghost use Rattle.garde_rules.specs.Holds.{unless};

use garde_i18n::I18n;
use garde_report::RuleError;
use std::alloc::Global;

/// A value that may be missing: an option.
pub trait Required {
    /// Whether the value is there.
    ghost set: { Self → Bool };

    /// Whether the value is there.
    fn is_set(&self) -> bool
        ensures { result ≡ set self.now };
}

impl<T> Required for Option<T> {
    ghost set = { is_some };

    fn is_set(&self) -> bool {
        self.is_some()
    }
}

/// Returns Ok where the value is there, and else the fault with the handler's text.
///
/// `RuleError::Memory` is returned only where the rule does not hold.
pub fn apply<T: Required, H: I18n>(alloc: Global, v: &T, _args: (), h: &H) -> Result<(), RuleError>
    ensures { Applies (unless (T.set v.now) datum.not_set) (H.text h.now) result }
{
    if v.is_set() {
        Ok(())
    } else {
        Err(RuleError::of(alloc, h.required_not_set(alloc)))
    }
}
