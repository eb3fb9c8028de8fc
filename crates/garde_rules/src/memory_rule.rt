//! Rules that may allocate for their answer.
ghost use Rattle.std.specs.Prelude.{Option};
ghost use Rattle.garde_engines.specs.Applies.{Fault};
ghost use Rattle.garde_rules.specs.Memory.{AppliesInMemory};

use garde_i18n::I18n;
use garde_report::RuleError;
use std::alloc::Global;

/// A rule as a value that may allocate for its answer, as the search for a pattern does.
pub trait MemoryRule<T> {
    /// What the rule finds in a value.
    ghost finds: { Self → T → Option Fault };

    /// Returns Ok only where the rule finds nothing, and a fault only with the handler's text of
    /// what it finds. `RuleError::Memory` says nothing of the value.
    fn find_in_memory<H: I18n>(&self, alloc: Global, value: &T, h: &H) -> Result<(), RuleError>
        ensures { AppliesInMemory (finds self.now value.now) (H.text h.now) result };
}
