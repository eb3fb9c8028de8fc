//! Whole numbers that texts write.
ghost use Rattle.std.specs.Prelude.{◌≡◌};
ghost use Rattle.std.specs.Str.Parse.{without_leading_sign};
ghost use Rattle.garde_form.specs.Texts.{all_digits, is_numeral, is_whole, nearest_text, signed_text, text_fault, unsigned_text};
ghost use Rattle.garde_tape.specs.Number.{has_minus};

mod signed;
mod unsigned;

use garde_schema::{FormFault, Integer, Kind, Wanted};

// Whether each byte is a decimal digit.
fn all_digits(text: &[u8]) -> bool
    ensures { result ≡ all_digits text.now }
{
    for &byte in text {
        if !(byte as char).is_digit(10) {
            return false;
        }
    }
    true
}

// Whether there is one decimal digit or more, and nothing else.
fn is_numeral(text: &[u8]) -> bool
    ensures { result ≡ is_numeral text.now }
{
    !text.is_empty() && all_digits(text)
}

// The text behind a plus or a minus.
fn behind_sign(text: &[u8]) -> &[u8]
    ensures { result.now ≡ without_leading_sign text.now }
{
    if text.is_empty() {
        return text;
    }
    if text[0] == b'-' {
        return &text[1..];
    }
    if text[0] == b'+' {
        return &text[1..];
    }
    text
}

// Whether a text is a whole number of any size.
fn is_whole(text: &str) -> bool
    ensures { result ≡ is_whole text.now }
{
    is_numeral(behind_sign(text.as_bytes()))
}

// What is wrong with a text that is no number of this type.
pub(crate) fn fault_of(text: &str, integer: Integer) -> FormFault
    ensures { result ≡ text_fault integer text.now }
{
    if is_whole(text) {
        FormFault::OutOfRange(integer)
    } else {
        FormFault::Wrong(Wanted::Whole, Kind::Text)
    }
}

// Whether a text begins with a minus.
fn has_minus(text: &[u8]) -> bool
    ensures { result ≡ has_minus text.now }
{
    !text.is_empty() && text[0] == b'-'
}

// Of the two ends of a type, the one that is nearest to a whole number beyond it which a text writes.
pub(crate) fn nearest_of<T: Drop>(text: &str, least: T, most: T) -> Option<T>
    ensures { result ≡ nearest_text least most text.now }
{
    if !is_whole(text) {
        return None;
    }
    if has_minus(text.as_bytes()) {
        Some(least)
    } else {
        Some(most)
    }
}

// The number without a sign, of at most 64 bits.
fn read_unsigned(text: &str) -> Option<u64>
    ensures { result ≡ unsigned_text text.now }
{
    match text.parse::<u64>() {
        Ok(n) => Some(n),
        Err(_) => None,
    }
}

// The number with its sign, of at most 64 bits.
fn read_signed(text: &str) -> Option<i64>
    ensures { result ≡ signed_text text.now }
{
    match text.parse::<i64>() {
        Ok(n) => Some(n),
        Err(_) => None,
    }
}
