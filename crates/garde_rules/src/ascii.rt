//! Texts of ASCII alone.
ghost use Rattle.std.specs.Prelude.{◌≡◌, Bool};
ghost use Rattle.garde_i18n.specs.Datum.{not_ascii};
ghost use Rattle.garde_engines.specs.Applies.{Applies};
ghost use Rattle.garde_rules.specs.Holds.{unless, passes_option};
ghost use Rattle.garde_rules.specs.Text.{is_ascii_text};

use crate::as_str::AsStr;
use garde_i18n::I18n;
use garde_report::RuleError;
use std::alloc::Global;

/// A value that may be ASCII. Every text is one, and an option of one.
pub trait Ascii {
    /// Whether the value passes.
    ghost passes: { Self → Bool };

    /// Whether every byte of the text is below 128. An option without a value passes.
    fn validate_ascii(&self) -> bool
        ensures { result ≡ passes self.now };
}

impl<T: AsStr> Ascii for T {
    ghost passes = { λ v. is_ascii_text (T.text v) };

    #[tactic(auto, using(crate::proofs::TextLemmas::ascii_is))]
    fn validate_ascii(&self) -> bool {
        self.as_str().is_ascii()
    }
}

impl<T: Ascii> Ascii for Option<T> {
    ghost passes = { passes_option T.passes };

    fn validate_ascii(&self) -> bool {
        match self {
            None => true,
            Some(v) => v.validate_ascii(),
        }
    }
}

/// Returns Ok where every byte is below 128, and else the fault with the handler's text.
///
/// `RuleError::Memory` is returned only where the rule does not hold.
pub fn apply<T: Ascii, H: I18n>(alloc: Global, v: &T, _args: (), h: &H) -> Result<(), RuleError>
    ensures { Applies (unless (T.passes v.now) not_ascii) (H.text h.now) result }
{
    if v.validate_ascii() {
        Ok(())
    } else {
        Err(RuleError::of(alloc, h.ascii_invalid(alloc)))
    }
}
