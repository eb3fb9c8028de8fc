//! The length in bytes.
ghost use Rattle.std.specs.Prelude.{◌≡◌, ◌-◌, ◌^◌, ℕ, string_bytes, length, vec_len, Result};
ghost use Rattle.std.specs.Box.{boxed_str_bytes, boxed_slice_len};
ghost use Rattle.std.specs.Cow.{cow_str_bytes};
ghost use Rattle.std.specs.Rc.{rc_str_bytes, rc_slice_items};
ghost use Rattle.garde_engines.specs.Applies.{Applies};
ghost use Rattle.garde_engines.specs.Bounds.{bounds_answer, length_fault, option_answer};
ghost use Rattle.garde_engines.specs.Counts.{byte_count};
ghost use Rattle.garde_engines.specs.declared.bounds.OutOfBounds.{OutOfBounds};

use crate::bounds::{OutOfBounds, check_bounds, length_error};
use crate::rule::Rule;
use garde_i18n::I18n;
use garde_report::RuleError;
use std::alloc::Global;
use std::borrow::CowStr;
use std::boxed::{BoxedSlice, BoxedStr};
use std::rc::{RcSlice, RcStr};

/// A value that has a number of bytes: a text, in UTF-8, or a list of bytes.
pub trait HasBytes {
    /// How many bytes the value has.
    ghost byte_len: { Self → ℕ };

    /// How many bytes the value has.
    fn num_bytes(&self) -> usize
        ensures { result ≡ byte_len self.now };
}

impl HasBytes for String {
    ghost byte_len = { λ v. byte_count (string_bytes v) };

    fn num_bytes(&self) -> usize {
        self.len()
    }
}

impl HasBytes for &String {
    ghost byte_len = { λ v. byte_count (string_bytes v.now) };

    fn num_bytes(&self) -> usize {
        self.len()
    }
}

impl HasBytes for &str {
    ghost byte_len = { λ v. byte_count v.now };

    fn num_bytes(&self) -> usize {
        self.len()
    }
}

impl HasBytes for CowStr<'_> {
    ghost byte_len = { λ v. byte_count (cow_str_bytes v) };

    fn num_bytes(&self) -> usize {
        self.len()
    }
}

impl HasBytes for RcStr {
    ghost byte_len = { λ v. byte_count (rc_str_bytes v) };

    fn num_bytes(&self) -> usize {
        self.len()
    }
}

impl HasBytes for BoxedStr {
    ghost byte_len = { λ v. byte_count (boxed_str_bytes v) };

    fn num_bytes(&self) -> usize {
        self.len()
    }
}

impl HasBytes for &[u8] {
    ghost byte_len = { λ v. length v.now };

    fn num_bytes(&self) -> usize {
        self.len()
    }
}

impl HasBytes for RcSlice<u8> {
    ghost byte_len = { λ v. length (rc_slice_items v) };

    fn num_bytes(&self) -> usize {
        self.len()
    }
}

impl HasBytes for BoxedSlice<u8> {
    ghost byte_len = { λ v. boxed_slice_len v };

    fn num_bytes(&self) -> usize {
        self.len()
    }
}

impl HasBytes for Vec<u8> {
    ghost byte_len = { λ v. vec_len v };

    fn num_bytes(&self) -> usize {
        self.len()
    }
}

impl<const N: usize> HasBytes for [u8; N] {
    ghost byte_len = { λ _. N };

    fn num_bytes(&self) -> usize {
        N
    }
}

/// A value whose number of bytes can be held against bounds: a value that has bytes, and an option
/// of one.
pub trait Bytes {
    /// What holding the number of bytes against a lower and an upper bound gives.
    ghost answer: { ℕ → ℕ → Self → Result (Unit {0}) OutOfBounds };

    /// Returns Ok where there are at least `min` and at most `max` bytes, and else which bound the
    /// number is beyond. A number that is beyond both, since `min` is above `max`, is below the
    /// lower one. An option without a value is within all bounds.
    fn validate_num_bytes(&self, min: usize, max: usize) -> Result<(), OutOfBounds>
        ensures { result ≡ answer min max self.now };
}

impl<T: HasBytes> Bytes for T {
    ghost answer = { λ min max v. bounds_answer min max (T.byte_len v) };

    fn validate_num_bytes(&self, min: usize, max: usize) -> Result<(), OutOfBounds> {
        check_bounds(self.num_bytes(), min, max)
    }
}

impl<T: Bytes> Bytes for Option<T> {
    ghost answer = { λ min max. option_answer (T.answer min max) };

    fn validate_num_bytes(&self, min: usize, max: usize) -> Result<(), OutOfBounds> {
        match self {
            None => Ok(()),
            Some(v) => v.validate_num_bytes(min, max),
        }
    }
}

/// Returns Ok where there are at least as many bytes as the first of `args` and at most as many as
/// the second, and else the fault with the handler's text of the bound that the number is beyond.
///
/// `RuleError::Memory` is returned only where the rule does not hold.
pub fn apply<T: Bytes, H: I18n>(
    alloc: Global,
    v: &T,
    args: (usize, usize),
    h: &H,
) -> Result<(), RuleError>
    ensures { Applies (length_fault args.0 args.1 (T.answer args.0 args.1 v.now)) (H.text h.now) result }
{
    let (min, max) = args;
    match v.validate_num_bytes(min, max) {
        Ok(()) => Ok(()),
        Err(bound) => Err(length_error(alloc, bound, min, max, h)),
    }
}

/// The rule as a value: there are at least `min` bytes and at most `max`.
#[derive(Clone, Copy, Debug, PartialEq, Eq)]
pub struct ByteLength {
    /// The least number of bytes.
    pub min: usize,
    /// The greatest number of bytes.
    pub max: usize,
}

impl ByteLength {
    /// There are at least `min` bytes.
    pub const fn min(min: usize) -> ByteLength
        ensures { result ≡ record { min = min; max = 2 ^ 64 - 1 } }
    {
        ByteLength {
            min,
            max: usize::MAX,
        }
    }

    /// There are at most `max` bytes.
    pub const fn max(max: usize) -> ByteLength
        ensures { result ≡ record { min = 0; max = max } }
    {
        ByteLength { min: 0, max }
    }

    /// There are just so many bytes.
    pub const fn equal(length: usize) -> ByteLength
        ensures { result ≡ record { min = length; max = length } }
    {
        ByteLength {
            min: length,
            max: length,
        }
    }

    /// There are at least `min` bytes and at most `max`.
    pub const fn between(min: usize, max: usize) -> ByteLength
        ensures { result ≡ record { min = min; max = max } }
    {
        ByteLength { min, max }
    }
}

impl<T: Bytes> Rule<T> for ByteLength {
    ghost finds = { λ rule v. length_fault rule.min rule.max (T.answer rule.min rule.max v) };

    #[inline]
    fn holds(&self, value: &T) -> bool {
        value.validate_num_bytes(self.min, self.max).is_ok()
    }

    fn find<H: I18n>(&self, alloc: Global, value: &T, h: &H) -> Result<(), RuleError> {
        apply(alloc, value, (self.min, self.max), h)
    }
}
