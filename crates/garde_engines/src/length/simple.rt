//! The length as the type counts it: the bytes of a text, the items of a collection.
ghost use Rattle.std.specs.Prelude.{◌≡◌, ◌-◌, ◌^◌, ℕ, Result};
ghost use Rattle.garde_engines.specs.Applies.{Applies};
ghost use Rattle.garde_engines.specs.Bounds.{bounds_answer, length_fault, option_answer};
ghost use Rattle.garde_engines.specs.declared.bounds.OutOfBounds.{OutOfBounds};

mod collections;
mod texts;

use crate::bounds::{OutOfBounds, check_bounds, length_error};
use crate::rule::Rule;
use garde_i18n::I18n;
use garde_report::RuleError;
use std::alloc::Global;

/// A value that has a length: a text has its bytes in UTF-8, a collection its items, a map its
/// pairs.
pub trait HasSimpleLength {
    /// The length of the value.
    ghost simple_len: { Self → ℕ };

    /// The length of the value.
    fn length(&self) -> usize
        ensures { result ≡ simple_len self.now };
}

/// A value whose length can be held against bounds: a value that has a length, an array, and an
/// option of one.
pub trait Simple {
    /// What holding the length against a lower and an upper bound gives.
    ghost answer: { ℕ → ℕ → Self → Result (Unit {0}) OutOfBounds };

    /// Returns Ok where the length is at least `min` and at most `max`, and else which bound it is
    /// beyond. A length that is beyond both, since `min` is above `max`, is below the lower one. An
    /// option without a value is within all bounds.
    fn validate_length(&self, min: usize, max: usize) -> Result<(), OutOfBounds>
        ensures { result ≡ answer min max self.now };
}

impl<T: HasSimpleLength> Simple for T {
    ghost answer = { λ min max v. bounds_answer min max (T.simple_len v) };

    fn validate_length(&self, min: usize, max: usize) -> Result<(), OutOfBounds> {
        check_bounds(self.length(), min, max)
    }
}

impl<T, const N: usize> Simple for [T; N] {
    ghost answer = { λ min max _. bounds_answer min max N };

    fn validate_length(&self, min: usize, max: usize) -> Result<(), OutOfBounds> {
        check_bounds(N, min, max)
    }
}

impl<T, const N: usize> Simple for &[T; N] {
    ghost answer = { λ min max _. bounds_answer min max N };

    fn validate_length(&self, min: usize, max: usize) -> Result<(), OutOfBounds> {
        check_bounds(N, min, max)
    }
}

impl<T: Simple> Simple for Option<T> {
    ghost answer = { λ min max. option_answer (T.answer min max) };

    fn validate_length(&self, min: usize, max: usize) -> Result<(), OutOfBounds> {
        match self {
            None => Ok(()),
            Some(v) => v.validate_length(min, max),
        }
    }
}

/// Returns Ok where the length is at least the first of `args` and at most the second, and else the
/// fault with the handler's text of the bound that it is beyond.
///
/// `RuleError::Memory` is returned only where the rule does not hold.
pub fn apply<T: Simple, H: I18n>(
    alloc: Global,
    v: &T,
    args: (usize, usize),
    h: &H,
) -> Result<(), RuleError>
    ensures { Applies (length_fault args.0 args.1 (T.answer args.0 args.1 v.now)) (H.text h.now) result }
{
    let (min, max) = args;
    match v.validate_length(min, max) {
        Ok(()) => Ok(()),
        Err(bound) => Err(length_error(alloc, bound, min, max, h)),
    }
}

/// The rule as a value: the length is at least `min` and at most `max`.
#[derive(Clone, Copy, Debug, PartialEq, Eq)]
pub struct Length {
    /// The least length.
    pub min: usize,
    /// The greatest length.
    pub max: usize,
}

impl Length {
    /// The length is at least `min`.
    pub const fn min(min: usize) -> Length
        ensures { result ≡ record { min = min; max = 2 ^ 64 - 1 } }
    {
        Length {
            min,
            max: usize::MAX,
        }
    }

    /// The length is at most `max`.
    pub const fn max(max: usize) -> Length
        ensures { result ≡ record { min = 0; max = max } }
    {
        Length { min: 0, max }
    }

    /// The length is just this one.
    pub const fn equal(length: usize) -> Length
        ensures { result ≡ record { min = length; max = length } }
    {
        Length {
            min: length,
            max: length,
        }
    }

    /// The length is at least `min` and at most `max`.
    pub const fn between(min: usize, max: usize) -> Length
        ensures { result ≡ record { min = min; max = max } }
    {
        Length { min, max }
    }
}

impl<T: Simple> Rule<T> for Length {
    ghost finds = { λ rule v. length_fault rule.min rule.max (T.answer rule.min rule.max v) };

    #[inline]
    fn holds(&self, value: &T) -> bool {
        value.validate_length(self.min, self.max).is_ok()
    }

    fn find<H: I18n>(&self, alloc: Global, value: &T, h: &H) -> Result<(), RuleError> {
        apply(alloc, value, (self.min, self.max), h)
    }
}
