//! A number, cut into its sign, its digits and its exponent.
ghost use Rattle.std.specs.Prelude.{◌≡◌, ◌<◌, ◌+◌, ◌^◌, length, SomeIff, IsTrue, ◌↔◌, drop};
ghost use Rattle.std.specs.Str.Parse.{starts_with_minus};
ghost use Rattle.fast_float.specs.Text.{digits_of};
ghost use Rattle.garde_decimal.specs.Value.{Rational, rational_code, rational_of, order, power_of};
ghost use Rattle.garde_decimal.specs.Value.{decimal_of, is_numeral, unsigned_text, number_of, IsReadable, is_multiple, IsSmallDivisor};

use crate::digits::compare_fractions;
use crate::multiples::{divides, significand};
use crate::sizes::{compare_sizes, power};
use fast_float::Numeral;
use std::cmp::Ordering;
use std::marker::Model;

// The exact number that a text writes, in its parts.
#[derive(Drop)]
pub(crate) struct Cut<'t> {
    negative: bool,
    numeral: Numeral<'t>,
    power: u64,
}

impl<'t> Model for Cut<'t> {
    ghost Value = { Rational };

    ghost coded = { rational_code };

    ghost view = { λ d. rational_of d.negative d.numeral };

    ghost invariant = { λ d. (d.power ≡ power_of d.numeral)
        × (length d.numeral.whole + length d.numeral.fraction < 2 ^ 63) };
}

impl<'t> Cut<'t> {
    // Reads a number of RFC 8259. A text that is none gives `None`, and so does one whose
    // exponent's digits do not fit 64 bits.
    pub(crate) fn read(text: &'t [u8]) -> Option<Cut<'t>>
        ensures number { SomeIff result (IsReadable text.now) (number_of text.now) }
        ensures value { result ≡ decimal_of text.now }
    {
        let negative = has_minus(text);
        let digits = unsigned(text);
        let numeral = Numeral::scan(digits);
        if !is_numeral(&numeral, digits.len()) {
            return None;
        }
        match power(&numeral) {
            Some(power) => Some(Cut {
                negative,
                numeral,
                power,
            }),
            None => None,
        }
    }

    // How two numbers lie.
    pub(crate) fn compare(&self, other: &Cut<'_>) -> Ordering
        ensures { result ≡ order self.now other.now }
    {
        let sizes = compare_sizes(&self.numeral, self.power, &other.numeral, other.power);
        if self.negative == other.negative {
            return if self.negative {
                sizes.reverse()
            } else {
                sizes
            };
        }
        if are_zero(&self.numeral, &other.numeral) {
            return Ordering::Equal;
        }
        if self.negative {
            Ordering::Less
        } else {
            Ordering::Greater
        }
    }

    // Whether the number is a whole multiple of `divisor`, where the digits of that write a number
    // other than 0 that fits 64 bits.
    pub(crate) fn is_multiple_of(&self, divisor: &Cut<'_>) -> Option<bool>
        ensures { SomeIff result (IsSmallDivisor divisor.now) (is_multiple self.now divisor.now) }
    {
        let digits = digits_u64(&divisor.numeral)?;
        if digits == 0 {
            return None;
        }
        Some(divides(
            &self.numeral,
            self.power,
            &divisor.numeral,
            divisor.power,
            digits,
        ))
    }
}

fn has_minus(text: &[u8]) -> bool
    ensures { result ≡ starts_with_minus text.now }
{
    !text.is_empty() && text[0] == b'-'
}

fn unsigned(text: &[u8]) -> &[u8]
    ensures { result.now ≡ unsigned_text text.now }
{
    if has_minus(text) { &text[1..] } else { text }
}

fn is_numeral(numeral: &Numeral<'_>, len: usize) -> bool
    ensures { result ≡ is_numeral numeral.now len }
{
    let whole = numeral.whole();
    !whole.is_empty()
        && (whole.len() == 1 || whole[0] != b'0')
        && (!numeral.has_point() || !numeral.fraction().is_empty())
        && numeral.len() == len
}

fn is_zero(numeral: &Numeral<'_>) -> bool
    requires { length numeral.now.whole + length numeral.now.fraction < 2 ^ 63 }
    ensures { IsTrue result ↔ digits_of numeral.now ≡ 0 }
{
    matches!(
        compare_fractions(numeral.whole(), numeral.fraction(), &[], &[], 0),
        Ordering::Equal
    )
}

fn are_zero(a: &Numeral<'_>, b: &Numeral<'_>) -> bool
    requires a_short { length a.now.whole + length a.now.fraction < 2 ^ 63 }
    requires b_short { length b.now.whole + length b.now.fraction < 2 ^ 63 }
    ensures { IsTrue result ↔ (digits_of a.now ≡ 0) × (digits_of b.now ≡ 0) }
{
    is_zero(a) && is_zero(b)
}

fn digits_u64(numeral: &Numeral<'_>) -> Option<u64>
    requires { length numeral.now.whole + length numeral.now.fraction < 2 ^ 63 }
    ensures { SomeIff result (digits_of numeral.now < 2 ^ 64) (digits_of numeral.now) }
{
    significand(numeral.whole(), numeral.fraction())
}
