//! Options that have to have a value under a condition.
ghost use Rattle.garde.specs.Fields.{required_if};

use garde_i18n::I18n;
use garde_report::RuleError;
use garde_rules::Rule;
use garde_rules::values::Required;
use std::alloc::Global;

/// The rule that an option has a value, where this condition holds.
#[derive(Clone, Copy, Debug)]
pub struct RequiredIf(pub bool);

impl<T> Rule<Option<T>> for RequiredIf {
    ghost finds = { λ rule v. required_if rule.0 v };

    #[inline]
    fn holds(&self, value: &Option<T>) -> bool {
        !self.0 || value.is_some()
    }

    fn find<H: I18n>(&self, alloc: Global, value: &Option<T>, h: &H) -> Result<(), RuleError> {
        if self.0 {
            Required.find(alloc, value, h)
        } else {
            Ok(())
        }
    }
}
