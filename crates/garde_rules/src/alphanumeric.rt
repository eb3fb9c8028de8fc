//! Texts of letters and numbers alone.
ghost use Rattle.std.specs.Prelude.{◌≡◌, Bool};
ghost use Rattle.std.specs.Char.{is_ascii_alphanumeric};
ghost use Rattle.std.specs.List.{list_all};
ghost use Rattle.garde_i18n.specs.Datum as datum;
ghost use Rattle.garde_engines.specs.Applies.{Applies};
ghost use Rattle.garde_rules.specs.Holds.{unless, passes_option};
ghost use Rattle.garde_rules.specs.Text.{is_alphanumeric_char, is_alphanumeric_text};

use crate::as_str::AsStr;
use garde_i18n::I18n;
use garde_report::RuleError;
use std::alloc::Global;
use unicode::properties::{GeneralCategory, is_alphabetic};

// Whether the character is a letter or a number.
fn is_alphanumeric(c: char) -> bool
    ensures { result ≡ is_alphanumeric_char c }
{
    is_alphabetic(c)
        || matches!(
            GeneralCategory::for_char(c),
            GeneralCategory::DecimalNumber
                | GeneralCategory::LetterNumber
                | GeneralCategory::OtherNumber
        )
}

// 1 at each letter and each digit of ASCII.
#[rattlefmt::skip]
static LETTERS_AND_DIGITS: [u8; 256] = [
    0, 0, 0, 0, 0, 0, 0, 0, 0, 0, 0, 0, 0, 0, 0, 0,
    0, 0, 0, 0, 0, 0, 0, 0, 0, 0, 0, 0, 0, 0, 0, 0,
    0, 0, 0, 0, 0, 0, 0, 0, 0, 0, 0, 0, 0, 0, 0, 0,
    1, 1, 1, 1, 1, 1, 1, 1, 1, 1, 0, 0, 0, 0, 0, 0,
    0, 1, 1, 1, 1, 1, 1, 1, 1, 1, 1, 1, 1, 1, 1, 1,
    1, 1, 1, 1, 1, 1, 1, 1, 1, 1, 1, 0, 0, 0, 0, 0,
    0, 1, 1, 1, 1, 1, 1, 1, 1, 1, 1, 1, 1, 1, 1, 1,
    1, 1, 1, 1, 1, 1, 1, 1, 1, 1, 1, 0, 0, 0, 0, 0,
    0, 0, 0, 0, 0, 0, 0, 0, 0, 0, 0, 0, 0, 0, 0, 0,
    0, 0, 0, 0, 0, 0, 0, 0, 0, 0, 0, 0, 0, 0, 0, 0,
    0, 0, 0, 0, 0, 0, 0, 0, 0, 0, 0, 0, 0, 0, 0, 0,
    0, 0, 0, 0, 0, 0, 0, 0, 0, 0, 0, 0, 0, 0, 0, 0,
    0, 0, 0, 0, 0, 0, 0, 0, 0, 0, 0, 0, 0, 0, 0, 0,
    0, 0, 0, 0, 0, 0, 0, 0, 0, 0, 0, 0, 0, 0, 0, 0,
    0, 0, 0, 0, 0, 0, 0, 0, 0, 0, 0, 0, 0, 0, 0, 0,
    0, 0, 0, 0, 0, 0, 0, 0, 0, 0, 0, 0, 0, 0, 0, 0,
];

// Whether the byte is a letter or a digit of ASCII.
#[inline(always)]
fn is_letter_or_digit(byte: u8) -> bool
    ensures { result ≡ is_ascii_alphanumeric byte }
{
    LETTERS_AND_DIGITS[usize::from(byte)] == 1
}

// Whether every byte is a letter or a digit of ASCII.
#[inline(always)]
fn are_ascii_alphanumeric(bytes: &[u8]) -> bool
    ensures { result ≡ list_all is_ascii_alphanumeric bytes.now }
{
    bytes.iter().all(|byte| is_letter_or_digit(*byte))
}

// Whether every character of the text is a letter or a number. A text of ASCII is decided by its
// bytes.
#[inline(always)]
#[tactic(auto, using(crate::proofs::AlphanumericLemmas::ascii_alphanumeric_text))]
fn all_alphanumeric(text: &str) -> bool
    ensures { result ≡ is_alphanumeric_text text.now }
{
    are_ascii_alphanumeric(text.as_bytes()) || text.chars().all(is_alphanumeric)
}

/// A value that may be alphanumeric. Every text may, and an option of one.
pub trait Alphanumeric {
    /// Whether the value passes.
    ghost passes: { Self → Bool };

    /// Whether every character of the text has the property Alphabetic of Unicode, or one of the
    /// general categories Nd, Nl and No. The empty text passes, and an option without a value.
    fn validate_alphanumeric(&self) -> bool
        ensures { result ≡ passes self.now };
}

impl<T: AsStr> Alphanumeric for T {
    ghost passes = { λ v. is_alphanumeric_text (T.text v) };

    #[inline(always)]
    fn validate_alphanumeric(&self) -> bool {
        all_alphanumeric(self.as_str())
    }
}

impl<T: Alphanumeric> Alphanumeric for Option<T> {
    ghost passes = { passes_option T.passes };

    fn validate_alphanumeric(&self) -> bool {
        match self {
            None => true,
            Some(v) => v.validate_alphanumeric(),
        }
    }
}

/// Returns Ok where every character is a letter or a number, and else the fault with the handler's
/// text.
///
/// `RuleError::Memory` is returned only where the rule does not hold.
pub fn apply<T: Alphanumeric, H: I18n>(
    alloc: Global,
    v: &T,
    _args: (),
    h: &H,
) -> Result<(), RuleError>
    ensures { Applies (unless (T.passes v.now) datum.not_alphanumeric) (H.text h.now) result }
{
    if v.validate_alphanumeric() {
        Ok(())
    } else {
        Err(RuleError::of(alloc, h.alphanumeric_invalid(alloc)))
    }
}
