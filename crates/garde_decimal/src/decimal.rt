//! A number as a text writes it.
ghost use Rattle.std.specs.Prelude.{◌≡◌, SomeIff};
ghost use Rattle.garde_decimal.specs.Value.{Rational, rational_code, order, decimal_of, number_of, IsReadable, is_multiple, IsSmallDivisor};

use crate::cut::Cut;
use std::cmp::Ordering;
use std::fmt;
use std::marker::Model;

/// The exact number that a text writes, which it borrows. A contract sees the number.
#[derive(Drop)]
pub struct Decimal<'t> {
    text: &'t str,
}

impl<'t> Model for Decimal<'t> {
    ghost Value = { Rational };

    ghost coded = { rational_code };

    ghost view = { λ d. number_of d.text.now };

    ghost invariant = { λ d. IsReadable d.text.now };
}

impl<'t> Decimal<'t> {
    /// Reads a number of RFC 8259, as JSON writes it. A text that is none gives `None`, and so does
    /// one whose exponent's digits do not fit 64 bits.
    pub fn read(text: &'t str) -> Option<Decimal<'t>>
        ensures number { SomeIff result (IsReadable text.now) (number_of text.now) }
        ensures value { result ≡ decimal_of text.now }
    {
        match Cut::read(text.as_bytes()) {
            Some(_) => Some(Decimal { text }),
            None => None,
        }
    }

    /// The text that it was read of.
    pub fn text(&self) -> &'t str
        ensures readable { IsReadable result.now }
        ensures value { number_of result.now ≡ self.now }
    {
        self.text
    }

    // Its sign, digits and exponent.
    fn cut(&self) -> Cut<'t>
        ensures { result ≡ self.now }
    {
        match Cut::read(self.text.as_bytes()) {
            Some(cut) => cut,
            None => unreachable!(),
        }
    }

    /// How two numbers lie. `-0`, `0.0` and `0e9` are equal.
    pub fn compare(&self, other: &Decimal<'_>) -> Ordering
        ensures { result ≡ order self.now other.now }
    {
        self.cut().compare(&other.cut())
    }

    /// Whether the number is a whole multiple of `divisor`, where the digits of that write a number
    /// other than 0 that fits 64 bits.
    pub fn is_multiple_of(&self, divisor: &Decimal<'_>) -> Option<bool>
        ensures { SomeIff result (IsSmallDivisor divisor.now) (is_multiple self.now divisor.now) }
    {
        self.cut().is_multiple_of(&divisor.cut())
    }
}

/// The text that it was read of.
impl fmt::Display for Decimal<'_> {
    fn fmt<W: fmt::Write>(&self, f: &mut fmt::Formatter<W>) -> fmt::Result {
        f.write_str(self.text)
    }
}

/// The text that it was read of.
impl fmt::Debug for Decimal<'_> {
    fn fmt<W: fmt::Write>(&self, f: &mut fmt::Formatter<W>) -> fmt::Result {
        f.write_str(self.text)
    }
}

/// Whether the number that one text writes is a whole multiple of that of the other, where both can
/// be read, and the digits of the other write a number other than 0 that fits 64 bits.
pub fn is_multiple(a: &str, b: &str) -> Option<bool>
    ensures { SomeIff result (IsReadable a.now × (IsReadable b.now
        × IsSmallDivisor (number_of b.now))) (is_multiple (number_of a.now) (number_of b.now)) }
{
    match (Decimal::read(a), Decimal::read(b)) {
        (Some(a), Some(b)) => a.is_multiple_of(&b),
        _ => None,
    }
}

/// How the numbers that two texts write lie, where both can be read.
pub fn compare(a: &str, b: &str) -> Option<Ordering>
    ensures { SomeIff result (IsReadable a.now × IsReadable b.now)
        (order (number_of a.now) (number_of b.now)) }
{
    match (Decimal::read(a), Decimal::read(b)) {
        (Some(a), Some(b)) => Some(a.compare(&b)),
        _ => None,
    }
}
