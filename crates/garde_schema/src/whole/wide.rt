//! The types of whole numbers of 128 bits.
ghost use Rattle.std.specs.Prelude.{◌≡◌, ◌<◌, ◌^◌, ◌==◌, ◌-◌, pos, negsuc, if◌then◌else◌, length, slice_index, IsTrue, option_and_then, FitsSigned};
ghost use Rattle.std.specs.Int.{w128};
ghost use Rattle.std.specs.Option.{SomeIff};
ghost use Rattle.std.specs.Char.{digit_value};
ghost use Rattle.std.specs.Str.Parse.{AllDigits};
ghost use Rattle.json.specs.Find.{as_number};
ghost use Rattle.fast_float.specs.Text.{digits_of, with_sign, IsInteger};
ghost use Rattle.garde_tape.specs.Number.{unsigned_of, signed_of, negative_of, positive_of};
ghost use Rattle.garde_schema.specs.declared.fault.Integer.TheVariants as integers;
ghost use Rattle.garde_schema.specs.Wide.{with_digit, with_digits};

use super::WholeType;
use crate::fault::Integer;
use fast_float::Numeral;
use garde_tape::Tree;

// The number with one more digit, where it has at most 128 bits.
fn with_digit(number: Option<u128>, digit: u8) -> Option<u128>
    requires { digit_value digit < 10 }
    ensures { result ≡ with_digit number digit }
{
    let digit = (digit as char).to_digit(10)?;
    number?.checked_mul(10)?.checked_add(digit as u128)
}

// The number with these digits behind it, where it has at most 128 bits.
fn with_digits(first: Option<u128>, digits: &[u8]) -> Option<u128>
    requires { AllDigits 10 digits.now }
    ensures { result ≡ with_digits first digits.now }
{
    let mut number = first;
    for digit in digits {
        number = with_digit(number, *digit);
    }
    number
}

// The number without a sign that a numeral writes by digits alone, where it has at most 128 bits.
fn to_u128(numeral: &Numeral<'_>) -> Option<u128>
    ensures { SomeIff result (IsInteger numeral.now
        × (digits_of numeral.now < 2 ^ 128)) (digits_of numeral.now) }
{
    let digits = numeral.whole();
    if digits.is_empty() || numeral.has_point() || !numeral.exponent().is_empty() {
        return None;
    }
    let front = with_digits(Some(0), digits);
    with_digits(front, numeral.fraction())
}

// The number of this size, below zero or not, where it has at most 128 bits with its sign.
fn signed_size(negative: bool, size: u128) -> Option<i128>
    ensures { SomeIff result (FitsSigned w128 (with_sign negative size)) (with_sign negative size) }
{
    if negative {
        0i128.checked_sub_unsigned(size)
    } else {
        i128::try_from(size).ok()
    }
}

fn to_i128(numeral: &Numeral<'_>, negative: bool) -> Option<i128>
    ensures { SomeIff result (IsInteger numeral.now
        × FitsSigned w128 (with_sign negative (digits_of numeral.now)))
        (with_sign negative (digits_of numeral.now)) }
{
    signed_size(negative, to_u128(numeral)?)
}

fn unsigned(text: &[u8]) -> Option<u128>
    ensures { result ≡ unsigned_of 128 text.now }
{
    match to_u128(&Numeral::scan(text)) {
        Some(number) => Some(number),
        None => None,
    }
}

// `-0` is no whole number, as in `garde_tape`.
fn negative(numeral: &Numeral<'_>) -> Option<i128>
    ensures { result ≡ negative_of 128 numeral.now }
{
    if let Some(number) = to_i128(numeral, true) {
        if number < 0 {
            return Some(number);
        }
    }
    None
}

fn positive(numeral: &Numeral<'_>) -> Option<i128>
    ensures { result ≡ positive_of 128 numeral.now }
{
    match to_i128(numeral, false) {
        Some(number) => Some(number),
        None => None,
    }
}

fn has_minus(text: &[u8]) -> bool
    ensures value { result ≡ (slice_index text.now 0 == 45) }
    ensures len { IsTrue result → 0 < length text.now }
{
    !text.is_empty() && text[0] == b'-'
}

fn signed(text: &[u8]) -> Option<i128>
    ensures { result ≡ signed_of 128 text.now }
{
    if has_minus(text) {
        negative(&Numeral::scan(&text[1..]))
    } else {
        positive(&Numeral::scan(text))
    }
}

/// `u128`.
#[derive(Clone, Copy, Debug)]
pub struct U128;

impl WholeType for U128 {
    type Number = u128;

    ghost integer = { λ _. integers.U128 };

    ghost spelled = { λ _ j. option_and_then (unsigned_of 128) (as_number j) };

    ghost nearest = { λ _ below. if below then 0 else 2 ^ 128 - 1 };

    fn integer(&self) -> Integer {
        Integer::U128
    }

    fn spelled(&self, tree: &Tree<'_, '_>) -> Option<u128> {
        unsigned(tree.as_number()?.as_bytes())
    }

    fn nearest(&self, below: bool) -> u128 {
        if below { u128::MIN } else { u128::MAX }
    }
}

/// `i128`.
#[derive(Clone, Copy, Debug)]
pub struct I128;

impl WholeType for I128 {
    type Number = i128;

    ghost integer = { λ _. integers.I128 };

    ghost spelled = { λ _ j. option_and_then (signed_of 128) (as_number j) };

    ghost nearest = { λ _ below. if below then negsuc (2 ^ 127 - 1) else pos (2 ^ 127 - 1) };

    fn integer(&self) -> Integer {
        Integer::I128
    }

    fn spelled(&self, tree: &Tree<'_, '_>) -> Option<i128> {
        signed(tree.as_number()?.as_bytes())
    }

    fn nearest(&self, below: bool) -> i128 {
        if below { i128::MIN } else { i128::MAX }
    }
}
