//! Rules on numbers, one that its type does not hold among them.
ghost use Rattle.std.specs.Prelude.{◌≡◌, Option, None, IfOk, IfErr, option_map, is_some, if◌then◌else◌};
ghost use Rattle.garde.specs.Fields.{Fault};
ghost use Rattle.garde_report.specs.declared.error.rule_error.RuleError.TheVariants as errors;
ghost use Rattle.garde_rules.specs.{fault_text};
ghost use Rattle.garde_schema.specs.Bound.{bound_in, first_bound, mark_text, TellsBound};

mod tuples;

use crate::checked::Under;
use crate::marks::Marks;
use garde::fields::{Is, IsInMemory, Rule, Rules, When};
use garde::rules::values::MemoryRule;
use garde::{Error, I18n, RuleError};
use std::alloc::Global;

/// Rules that are asked of a number. Where a type does not hold the number, they are asked of the
/// number nearest to it that the type holds: the bound which that one is beyond is the bound of both.
pub trait NumberRules<T>: Rules<T> {
    /// The fault of the first bound that a value is beyond.
    ghost bound: { Self → T → Option Fault };

    /// Returns Ok where the value is beyond no bound, and else the fault of the first one with the
    /// handler's text of it.
    fn find_bound<H: I18n>(&self, alloc: Global, value: &T, h: &H) -> Result<(), RuleError>
        ensures { TellsBound (bound self.now value.now) (H.text h.now) result };
}

// The message of what a rule finds in a value, by a handler that marks bounds or not.
fn message_of<T, R: Rule<T>>(
    alloc: Global,
    rule: &R,
    value: &T,
    marked: bool,
) -> Result<Option<Error>, RuleError>
    ensures message { IfOk result (λ found.
        found ≡ option_map (fault_text (mark_text marked)) (R.finds rule.now value.now)) }
    ensures memory { IfErr result (λ error. error ≡ errors.Memory) }
{
    match rule.find(alloc, value, &Marks(marked)) {
        Ok(()) => Ok(None),
        Err(RuleError::Fault(message)) => Ok(Some(message)),
        Err(RuleError::Memory) => Err(RuleError::Memory),
    }
}

// Whether what a rule finds in a value is the fault of a bound.
fn finds_bound<T, R: Rule<T>>(alloc: Global, rule: &R, value: &T) -> Result<bool, RuleError>
    ensures told { IfOk result (λ told. told ≡ is_some (bound_in (R.finds rule.now value.now))) }
    ensures memory { IfErr result (λ error. error ≡ errors.Memory) }
{
    let plain = message_of(alloc, rule, value, false)?;
    let marked = message_of(alloc, rule, value, true)?;
    match (plain, marked) {
        (Some(plain), Some(marked)) => Ok(plain != marked),
        _ => Ok(false),
    }
}

/// No bound.
impl<T> NumberRules<T> for () {
    ghost bound = { λ _ _. None };

    fn find_bound<H: I18n>(&self, _alloc: Global, _value: &T, _h: &H) -> Result<(), RuleError> {
        Ok(())
    }
}

/// The bound of the rule, if it is one.
impl<T, R: Rule<T>> NumberRules<T> for Is<R> {
    ghost bound = { λ is value. bound_in (R.finds is.0 value) };

    fn find_bound<H: I18n>(&self, alloc: Global, value: &T, h: &H) -> Result<(), RuleError> {
        if finds_bound(alloc, &self.0, value)? {
            self.0.find(alloc, value, h)
        } else {
            Ok(())
        }
    }
}

/// A rule that may allocate for its answer is no bound.
impl<T, R: MemoryRule<T>> NumberRules<T> for IsInMemory<R> {
    ghost bound = { λ _ _. None };

    fn find_bound<H: I18n>(&self, _alloc: Global, _value: &T, _h: &H) -> Result<(), RuleError> {
        Ok(())
    }
}

/// The bounds of the rules, where the condition holds, and else none.
impl<T, R: NumberRules<T>> NumberRules<T> for When<R> {
    ghost bound = { λ rules value. if rules.0 then R.bound rules.1 value else None };

    fn find_bound<H: I18n>(&self, alloc: Global, value: &T, h: &H) -> Result<(), RuleError> {
        if self.0 {
            self.1.find_bound(alloc, value, h)
        } else {
            Ok(())
        }
    }
}

/// What is found under a member is no bound of the value.
impl<T, R: Rules<T>> NumberRules<T> for Under<R> {
    ghost bound = { λ _ _. None };

    fn find_bound<H: I18n>(&self, _alloc: Global, _value: &T, _h: &H) -> Result<(), RuleError> {
        Ok(())
    }
}

/// The bounds of the rules that are referred to.
impl<'r, T, R: NumberRules<T>> NumberRules<T> for &'r R {
    ghost bound = { λ rules value. R.bound rules.now value };

    fn find_bound<H: I18n>(&self, alloc: Global, value: &T, h: &H) -> Result<(), RuleError> {
        (**self).find_bound(alloc, value, h)
    }
}

/// The bounds of the one, and then those of the other.
impl<T, A: NumberRules<T>, B: NumberRules<T>> NumberRules<T> for (A, B) {
    ghost bound = { λ both value. first_bound (A.bound both.0 value) (B.bound both.1 value) };

    fn find_bound<H: I18n>(&self, alloc: Global, value: &T, h: &H) -> Result<(), RuleError> {
        self.0.find_bound(alloc, value, h)?;
        self.1.find_bound(alloc, value, h)
    }
}

/// The bounds of three in turn.
impl<T, A: NumberRules<T>, B: NumberRules<T>, C: NumberRules<T>> NumberRules<T> for (A, B, C) {
    ghost bound = { λ all value. first_bound (A.bound all.0 value)
        (first_bound (B.bound all.1 value) (C.bound all.2 value)) };

    fn find_bound<H: I18n>(&self, alloc: Global, value: &T, h: &H) -> Result<(), RuleError> {
        (&self.0, (&self.1, &self.2)).find_bound(alloc, value, h)
    }
}

/// The bounds of four in turn.
impl<T, A: NumberRules<T>, B: NumberRules<T>, C: NumberRules<T>, D: NumberRules<T>> NumberRules<T>
    for (A, B, C, D) {
    ghost bound = { λ all value. first_bound (A.bound all.0 value)
        (first_bound (B.bound all.1 value)
        (first_bound (C.bound all.2 value) (D.bound all.3 value))) };

    fn find_bound<H: I18n>(&self, alloc: Global, value: &T, h: &H) -> Result<(), RuleError> {
        (&self.0, (&self.1, (&self.2, &self.3))).find_bound(alloc, value, h)
    }
}
