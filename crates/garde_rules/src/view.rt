//! Rules of a view of a value.
ghost use Rattle.std.specs.Prelude.{◌≡◌};

use crate::adapt;
use crate::memory_rule::MemoryRule;
use garde_engines::Rule;
use garde_i18n::I18n;
use garde_report::RuleError;
use std::alloc::Global;

/// A view of a `T` as a value of another type, of which a rule can be asked.
pub trait View<T> {
    /// The type of the value that is seen.
    type Seen;

    /// The value that is seen.
    ghost seen: { Self → T → Self.Seen };

    /// Returns the value that is seen.
    fn see<'v>(&self, value: &'v T) -> &'v Self::Seen
        ensures { result.now ≡ seen self.now value.now };
}

/// The rule as a value: this rule holds of this view of the value.
#[derive(Clone, Copy, Debug)]
pub struct Adapt<V, R>(pub V, pub R);

impl<T, V: View<T>, R: Rule<V::Seen>> Rule<T> for Adapt<V, R> {
    ghost finds = { λ rule v. R.finds rule.1 (V.seen rule.0 v) };

    #[inline]
    fn holds(&self, value: &T) -> bool {
        self.1.holds(self.0.see(value))
    }

    fn find<H: I18n>(&self, alloc: Global, value: &T, h: &H) -> Result<(), RuleError> {
        adapt(
            value,
            |value| self.0.see(value),
            |seen| self.1.find(alloc, *seen, h),
        )
    }
}

impl<T, V: View<T>, R: MemoryRule<V::Seen>> MemoryRule<T> for Adapt<V, R> {
    ghost finds = { λ rule v. R.finds rule.1 (V.seen rule.0 v) };

    fn find_in_memory<H: I18n>(&self, alloc: Global, value: &T, h: &H) -> Result<(), RuleError> {
        adapt(
            value,
            |value| self.0.see(value),
            |seen| self.1.find_in_memory(alloc, *seen, h),
        )
    }
}
