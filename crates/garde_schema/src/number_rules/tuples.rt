//! The bounds of tuples of five and six rules. More are tuples in tuples, by `all!`.
ghost use Rattle.garde_schema.specs.Bound.{first_bound};

use super::NumberRules;
use garde::{I18n, RuleError};
use std::alloc::Global;

/// The bounds of five in turn.
impl<
    T,
    A: NumberRules<T>,
    B: NumberRules<T>,
    C: NumberRules<T>,
    D: NumberRules<T>,
    E: NumberRules<T>,
> NumberRules<T> for (A, B, C, D, E) {
    ghost bound = { λ all value. first_bound (A.bound all.0 value) (first_bound (B.bound all.1 value) (first_bound (C.bound all.2 value) (first_bound (D.bound all.3 value) (E.bound all.4 value)))) };

    fn find_bound<H: I18n>(&self, alloc: Global, value: &T, h: &H) -> Result<(), RuleError> {
        let rest = (&self.3, &self.4);
        (&self.0, &self.1, &self.2, rest).find_bound(alloc, value, h)
    }
}

/// The bounds of six in turn.
impl<
    T,
    A: NumberRules<T>,
    B: NumberRules<T>,
    C: NumberRules<T>,
    D: NumberRules<T>,
    E: NumberRules<T>,
    F: NumberRules<T>,
> NumberRules<T> for (A, B, C, D, E, F) {
    ghost bound = { λ all value. first_bound (A.bound all.0 value) (first_bound (B.bound all.1 value) (first_bound (C.bound all.2 value) (first_bound (D.bound all.3 value) (first_bound (E.bound all.4 value) (F.bound all.5 value))))) };

    fn find_bound<H: I18n>(&self, alloc: Global, value: &T, h: &H) -> Result<(), RuleError> {
        let rest = (&self.3, &self.4, &self.5);
        (&self.0, &self.1, &self.2, rest).find_bound(alloc, value, h)
    }
}
