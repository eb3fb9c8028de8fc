//! Texts that lie in the value itself.
ghost use Rattle.std.specs.Prelude.{◌≡◌, ◌≤◌, ◌<◌, length, drop, IfSome, IsSome};
ghost use Rattle.std.specs.Fmt.{decimal};

use std::marker::Model;
use std::str;

/// The most decimal digits that a `usize` has.
const MOST_DIGITS: usize = 20;

/// A text of at most `N` bytes, which allocates nothing.
#[derive(Drop)]
pub(crate) struct Short<const N: usize> {
    len: u8,
    bytes: [u8; N],
}

impl<const N: usize> Model for Short<N> {
    ghost use Rattle.std.specs.Prelude.{ℕ, List, ◌≤◌, take, IsUtf8};

    ghost Value = { List ℕ };

    ghost view = { λ a. take a.len a.bytes };

    ghost invariant = { λ a. (a.len ≤ N) × ∥ IsUtf8 (take a.len a.bytes) ∥₁ };
}

impl<const N: usize> Short<N> {
    /// A copy of a text, or `None` where it has more than `N` bytes.
    pub(crate) fn of(text: &str) -> Option<Short<N>>
        requires { N < 256 }
        ensures same { IfSome result (λ short. short ≡ text.now) }
        ensures fits { length text.now ≤ N → IsSome result }
    {
        let len = text.len();
        if len > N {
            return None;
        }
        let mut bytes = [0; N];
        bytes[..len].copy_from_slice(text.as_bytes());
        Some(Short {
            len: len as u8,
            bytes,
        })
    }

    /// A number in decimal.
    pub(crate) fn decimal(number: usize) -> Short<N>
        requires low { 20 ≤ N }
        requires high { N < 256 }
        ensures { result ≡ decimal number }
    {
        let mut digits = [0; MOST_DIGITS];
        let start = write_digits(number, &mut digits);
        let text = unsafe { str::from_utf8_unchecked(&digits[start..]) };
        Short::of(text).unwrap()
    }

    /// The text.
    pub(crate) fn as_str(&self) -> &str
        ensures { result.now ≡ self.now }
    {
        unsafe { str::from_utf8_unchecked(&self.bytes[..self.len as usize]) }
    }

    /// The same text once more.
    pub(crate) fn copy(&self) -> Short<N>
        ensures { result ≡ self.now }
    {
        Short {
            len: self.len,
            bytes: self.bytes,
        }
    }
}

// Writes the decimal digits of a number at the end of `digits`, and returns where they start.
fn write_digits(number: usize, digits: &mut [u8; MOST_DIGITS]) -> usize
    ensures within { result ≤ 20 }
    ensures written { drop result digits.new ≡ decimal number }
{
    let mut start = MOST_DIGITS;
    let mut rest = number;
    while rest >= 10 {
        start -= 1;
        digits[start] = b'0' + (rest % 10) as u8;
        rest /= 10;
    }
    start -= 1;
    digits[start] = b'0' + rest as u8;
    start
}
