//! Phone numbers.
ghost use Rattle.std.specs.Prelude.{◌≡◌, Result};
ghost use Rattle.garde_i18n.specs.declared.reasons.InvalidPhoneNumber.{InvalidPhoneNumber};
ghost use Rattle.garde_engines.specs.Applies.{Applies};
ghost use Rattle.garde_rules.specs.Reasons.{phone_fault, option_reason};

use garde_i18n::I18n;
pub use garde_i18n::InvalidPhoneNumber;
use garde_report::RuleError;
use std::alloc::Global;

/// A value that may be a phone number. Which values are is left to the implementation: there is
/// none for texts. An option of such a value is one.
pub trait PhoneNumber {
    /// Ok of a phone number, and else why the value is none.
    ghost answer: { Self → Result (Unit {0}) InvalidPhoneNumber };

    /// Returns Ok where the value is a phone number, and else why it is none. An option without a
    /// value passes.
    fn validate_phone_number(&self) -> Result<(), InvalidPhoneNumber>
        ensures { result ≡ answer self.now };
}

impl<T: PhoneNumber> PhoneNumber for Option<T> {
    ghost answer = { option_reason T.answer };

    fn validate_phone_number(&self) -> Result<(), InvalidPhoneNumber> {
        match self {
            None => Ok(()),
            Some(v) => v.validate_phone_number(),
        }
    }
}

/// Returns Ok where the value is a phone number, and else the fault with the handler's text of why
/// it is none.
///
/// `RuleError::Memory` is returned only where the rule does not hold.
pub fn apply<T: PhoneNumber, H: I18n>(
    alloc: Global,
    v: &T,
    _args: (),
    h: &H,
) -> Result<(), RuleError>
    ensures { Applies (phone_fault (T.answer v.now)) (H.text h.now) result }
{
    match v.validate_phone_number() {
        Ok(()) => Ok(()),
        Err(reason) => Err(RuleError::of(alloc, h.phone_number_invalid(alloc, reason))),
    }
}
