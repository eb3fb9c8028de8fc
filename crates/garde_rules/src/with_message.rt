//! Rules with a message of their own.
ghost use Rattle.std.specs.Prelude.{◌≡◌, option_map};
ghost use Rattle.garde_engines.specs.Applies.{own};

use garde_engines::Rule;
use garde_i18n::I18n;
use garde_report::{Error, RuleError};
use std::alloc::Global;

/// The rule as a value: this rule holds of the value. What it finds is reported by this message,
/// which no handler changes.
///
/// The handler's text is not used, and yet it is made: where there is no memory for it,
/// `RuleError::Memory` is returned.
#[derive(Clone, Copy, Debug)]
pub struct WithMessage<'a, R>(pub R, pub &'a str);

impl<T, R: Rule<T>> Rule<T> for WithMessage<'_, R> {
    ghost finds = { λ rule v. option_map (λ _. own rule.1.now) (R.finds rule.0 v) };

    #[inline]
    fn holds(&self, value: &T) -> bool {
        self.0.holds(value)
    }

    fn find<H: I18n>(&self, alloc: Global, value: &T, h: &H) -> Result<(), RuleError> {
        match self.0.find(alloc, value, h) {
            Err(RuleError::Fault(_)) => match Error::new(alloc, self.1) {
                Ok(error) => Err(RuleError::Fault(error)),
                Err(_) => Err(RuleError::Memory),
            },
            answer => answer,
        }
    }
}
