//! Credit card numbers.
ghost use Rattle.std.specs.Prelude.{◌≡◌, Result};
ghost use Rattle.garde_i18n.specs.declared.reasons.InvalidCreditCard.{InvalidCreditCard};
ghost use Rattle.garde_engines.specs.Applies.{Applies};
ghost use Rattle.garde_rules.specs.Reasons.{card_fault, option_reason};

use garde_i18n::I18n;
pub use garde_i18n::InvalidCreditCard;
use garde_report::RuleError;
use std::alloc::Global;

/// A value that may be a credit card number. Which values are is left to the implementation: there
/// is none for texts. An option of such a value is one.
pub trait CreditCard {
    /// Ok of a credit card number, and else why the value is none.
    ghost answer: { Self → Result (Unit {0}) InvalidCreditCard };

    /// Returns Ok where the value is a credit card number, and else why it is none. An option
    /// without a value passes.
    fn validate_credit_card(&self) -> Result<(), InvalidCreditCard>
        ensures { result ≡ answer self.now };
}

impl<T: CreditCard> CreditCard for Option<T> {
    ghost answer = { option_reason T.answer };

    fn validate_credit_card(&self) -> Result<(), InvalidCreditCard> {
        match self {
            None => Ok(()),
            Some(v) => v.validate_credit_card(),
        }
    }
}

/// Returns Ok where the value is a credit card number, and else the fault with the handler's text
/// of why it is none.
///
/// `RuleError::Memory` is returned only where the rule does not hold.
pub fn apply<T: CreditCard, H: I18n>(
    alloc: Global,
    v: &T,
    _args: (),
    h: &H,
) -> Result<(), RuleError>
    ensures { Applies (card_fault (T.answer v.now)) (H.text h.now) result }
{
    match v.validate_credit_card() {
        Ok(()) => Ok(()),
        Err(reason) => Err(RuleError::of(alloc, h.credit_card_invalid(alloc, reason))),
    }
}
