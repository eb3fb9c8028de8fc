//! Rules as values.
ghost use Rattle.std.specs.Prelude.{◌≡◌, Option, None, IsTrue};
ghost use Rattle.garde_engines.specs.Applies.{Applies, Fault};

use garde_i18n::I18n;
use garde_report::RuleError;
use std::alloc::Global;

/// A rule as a value, which says what is wrong with a `T`.
///
/// A user-defined check is a rule too: its fault is its own message, which no handler changes.
pub trait Rule<T> {
    /// What the rule finds in a value.
    ghost finds: { Self → T → Option Fault };

    /// Whether the rule is seen at once to find nothing. `false` says nothing of the value: `find`
    /// is then asked. A rule that leaves this out is always asked so.
    #[inline]
    fn holds(&self, _value: &T) -> bool
        ensures { IsTrue result → finds self.now _value.now ≡ None }
    {
        false
    }

    /// Returns Ok where the rule finds nothing, and else the fault with the handler's text of it.
    ///
    /// `RuleError::Memory` is returned only where there is a fault whose text could not be made.
    fn find<H: I18n>(&self, alloc: Global, value: &T, h: &H) -> Result<(), RuleError>
        ensures { Applies (finds self.now value.now) (H.text h.now) result };
}
