//! Questions that have the answer yes or no, and the rule that one holds.
ghost use Rattle.std.specs.Prelude.{◌≡◌, Bool};
ghost use Rattle.garde.specs.Fields.{asks_text};
ghost use Rattle.garde.specs.Redaction.{own_fault};
ghost use Rattle.garde.specs.RedactionLaws.{asks_among};

use super::asks::Asks;
use garde_i18n::I18n;
use garde_report::RuleError;
use garde_rules::{Discreet, Rule};
use std::alloc::Global;

/// What may be asked of a `T`, with the answer yes or no, as two lines with one name.
pub trait Question<T> {
    /// Whether it holds of a value.
    ghost holds: { Self → T → Bool };

    /// Whether it holds of this value.
    fn holds(&self, value: &T) -> bool
        ensures { result ≡ holds self.now value.now };
}

/// The rule that a question holds of the value: a message and the question. Where it does not hold,
/// this message is reported, which no handler changes.
#[derive(Clone, Copy, Debug)]
pub struct Asked<'m, Q>(pub &'m str, pub Q);

impl<T, Q: Question<T>> Rule<T> for Asked<'_, Q> {
    ghost finds = { λ asked value. asks_text asked.0.now (Q.holds asked.1 value) };

    #[inline]
    fn holds(&self, value: &T) -> bool {
        self.1.holds(value)
    }

    fn find<H: I18n>(&self, alloc: Global, value: &T, h: &H) -> Result<(), RuleError> {
        Asks(self.0, self.1.holds(value)).find(alloc, value, h)
    }
}

impl<T, Q: Question<T>> Discreet<T> for Asked<'_, Q> {
    ghost may_find = { λ asked. own_fault asked.0.now };

    ghost discreet = { λ asked value. asks_among asked.0.now (Q.holds asked.1 value) };
}
