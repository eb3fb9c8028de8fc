//! A condition with a message of its own.
ghost use Rattle.garde.specs.Fields.{asks_named, asks_text};

use garde_i18n::{Code, I18n, Named};
use garde_report::{Error, RuleError};
use garde_rules::Rule;
use std::alloc::Global;

/// The rule that a condition holds, which is computed before. Where it does not, this message is
/// reported, which no handler changes.
///
/// It asks nothing of the value of the field, so the condition may be of any fields: that one of
/// two is given, or that one is greater than another.
#[derive(Clone, Copy, Debug)]
pub struct Asks<'m>(pub &'m str, pub bool);

impl<T> Rule<T> for Asks<'_> {
    ghost finds = { λ asks _. asks_text asks.0.now asks.1 };

    #[inline]
    fn holds(&self, _value: &T) -> bool {
        self.1
    }

    fn find<H: I18n>(&self, alloc: Global, _value: &T, _h: &H) -> Result<(), RuleError> {
        if self.1 {
            Ok(())
        } else {
            Err(RuleError::Fault(Error::new(alloc, self.0)?))
        }
    }
}

/// The rule that a condition holds, which is computed before, with a code: the code, the sentence in
/// English, and the condition. Where it does not hold, the handler is asked for the text of the code,
/// so it may be in the language of the reader.
#[derive(Clone, Copy, Debug)]
pub struct AsksAs<'m>(pub &'static str, pub &'m str, pub bool);

impl<T> Rule<T> for AsksAs<'_> {
    ghost finds = { λ asks _. asks_named asks.0.now asks.1.now asks.2 };

    #[inline]
    fn holds(&self, _value: &T) -> bool {
        self.2
    }

    fn find<H: I18n>(&self, alloc: Global, _value: &T, h: &H) -> Result<(), RuleError> {
        if self.2 {
            return Ok(());
        }
        let code = Code {
            name: self.0,
            param: None,
        };
        let fault = Named {
            code,
            english: self.1,
        };
        Err(RuleError::of(alloc, h.named(alloc, fault)))
    }
}
