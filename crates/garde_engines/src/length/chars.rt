//! The length in characters.
ghost use Rattle.std.specs.Prelude.{◌≡◌, ◌-◌, ◌^◌, ℕ, string_bytes, length, vec_len, Result};
ghost use Rattle.std.specs.Box.{boxed_str_bytes, boxed_slice_len};
ghost use Rattle.std.specs.Cow.{cow_str_bytes};
ghost use Rattle.std.specs.Rc.{rc_str_bytes, rc_slice_items};
ghost use Rattle.garde_engines.specs.Applies.{Applies};
ghost use Rattle.garde_engines.specs.Bounds.{bounds_answer, length_fault, option_answer};
ghost use Rattle.garde_engines.specs.Counts.{char_count};
ghost use Rattle.garde_engines.specs.declared.bounds.OutOfBounds.{OutOfBounds};

use crate::bounds::{OutOfBounds, check_bounds, length_error};
use crate::count::{check_chars, count_chars};
use crate::rule::Rule;
use garde_i18n::I18n;
use garde_report::RuleError;
use std::alloc::Global;
use std::borrow::CowStr;
use std::boxed::{BoxedSlice, BoxedStr};
use std::rc::{RcSlice, RcStr};

/// A value that has a number of characters: a text, or a list of characters. A character is a
/// Unicode scalar value.
pub trait HasChars {
    /// How many characters the value has.
    ghost char_len: { Self → ℕ };

    /// How many characters the value has.
    fn num_chars(&self) -> usize
        ensures { result ≡ char_len self.now };

    /// Holds the number of characters against bounds, as `OutOfBounds` says.
    fn check_num_chars(&self, min: usize, max: usize) -> Result<(), OutOfBounds>
        ensures { result ≡ bounds_answer min max (char_len self.now) }
    {
        check_bounds(self.num_chars(), min, max)
    }
}

impl HasChars for String {
    ghost char_len = { λ v. char_count (string_bytes v) };

    fn num_chars(&self) -> usize {
        count_chars(self.as_str())
    }

    fn check_num_chars(&self, min: usize, max: usize) -> Result<(), OutOfBounds> {
        check_chars(self.as_str(), min, max)
    }
}

impl HasChars for &String {
    ghost char_len = { λ v. char_count (string_bytes v.now) };

    fn num_chars(&self) -> usize {
        count_chars(self.as_str())
    }

    fn check_num_chars(&self, min: usize, max: usize) -> Result<(), OutOfBounds> {
        check_chars(self.as_str(), min, max)
    }
}

impl HasChars for &str {
    ghost char_len = { λ v. char_count v.now };

    fn num_chars(&self) -> usize {
        count_chars(self)
    }

    fn check_num_chars(&self, min: usize, max: usize) -> Result<(), OutOfBounds> {
        check_chars(self, min, max)
    }
}

impl HasChars for CowStr<'_> {
    ghost char_len = { λ v. char_count (cow_str_bytes v) };

    fn num_chars(&self) -> usize {
        count_chars(self.as_str())
    }

    fn check_num_chars(&self, min: usize, max: usize) -> Result<(), OutOfBounds> {
        check_chars(self.as_str(), min, max)
    }
}

impl HasChars for RcStr {
    ghost char_len = { λ v. char_count (rc_str_bytes v) };

    fn num_chars(&self) -> usize {
        count_chars(self.as_str())
    }

    fn check_num_chars(&self, min: usize, max: usize) -> Result<(), OutOfBounds> {
        check_chars(self.as_str(), min, max)
    }
}

impl HasChars for BoxedStr {
    ghost char_len = { λ v. char_count (boxed_str_bytes v) };

    fn num_chars(&self) -> usize {
        count_chars(self.as_str())
    }

    fn check_num_chars(&self, min: usize, max: usize) -> Result<(), OutOfBounds> {
        check_chars(self.as_str(), min, max)
    }
}

impl HasChars for &[char] {
    ghost char_len = { λ v. length v.now };

    fn num_chars(&self) -> usize {
        self.len()
    }
}

impl HasChars for RcSlice<char> {
    ghost char_len = { λ v. length (rc_slice_items v) };

    fn num_chars(&self) -> usize {
        self.len()
    }
}

impl HasChars for BoxedSlice<char> {
    ghost char_len = { λ v. boxed_slice_len v };

    fn num_chars(&self) -> usize {
        self.len()
    }
}

impl HasChars for Vec<char> {
    ghost char_len = { λ v. vec_len v };

    fn num_chars(&self) -> usize {
        self.len()
    }
}

/// A value whose number of characters can be held against bounds: a value that has characters, and
/// an option of one.
pub trait Chars {
    /// What holding the number of characters against a lower and an upper bound gives.
    ghost answer: { ℕ → ℕ → Self → Result (Unit {0}) OutOfBounds };

    /// Returns Ok where there are at least `min` and at most `max` characters, and else which bound
    /// the number is beyond. A number that is beyond both, since `min` is above `max`, is below the
    /// lower one. An option without a value is within all bounds.
    fn validate_num_chars(&self, min: usize, max: usize) -> Result<(), OutOfBounds>
        ensures { result ≡ answer min max self.now };
}

impl<T: HasChars> Chars for T {
    ghost answer = { λ min max v. bounds_answer min max (T.char_len v) };

    fn validate_num_chars(&self, min: usize, max: usize) -> Result<(), OutOfBounds> {
        self.check_num_chars(min, max)
    }
}

impl<T: Chars> Chars for Option<T> {
    ghost answer = { λ min max. option_answer (T.answer min max) };

    fn validate_num_chars(&self, min: usize, max: usize) -> Result<(), OutOfBounds> {
        match self {
            None => Ok(()),
            Some(v) => v.validate_num_chars(min, max),
        }
    }
}

/// Returns Ok where there are at least as many characters as the first of `args` and at most as
/// many as the second, and else the fault with the handler's text of the bound that the number is
/// beyond.
///
/// `RuleError::Memory` is returned only where the rule does not hold.
pub fn apply<T: Chars, H: I18n>(
    alloc: Global,
    v: &T,
    args: (usize, usize),
    h: &H,
) -> Result<(), RuleError>
    ensures { Applies (length_fault args.0 args.1 (T.answer args.0 args.1 v.now)) (H.text h.now) result }
{
    let (min, max) = args;
    match v.validate_num_chars(min, max) {
        Ok(()) => Ok(()),
        Err(bound) => Err(length_error(alloc, bound, min, max, h)),
    }
}

/// The rule as a value: there are at least `min` characters and at most `max`.
#[derive(Clone, Copy, Debug, PartialEq, Eq)]
pub struct CharLength {
    /// The least number of characters.
    pub min: usize,
    /// The greatest number of characters.
    pub max: usize,
}

impl CharLength {
    /// There are at least `min` characters.
    pub const fn min(min: usize) -> CharLength
        ensures { result ≡ record { min = min; max = 2 ^ 64 - 1 } }
    {
        CharLength {
            min,
            max: usize::MAX,
        }
    }

    /// There are at most `max` characters.
    pub const fn max(max: usize) -> CharLength
        ensures { result ≡ record { min = 0; max = max } }
    {
        CharLength { min: 0, max }
    }

    /// There are just so many characters.
    pub const fn equal(length: usize) -> CharLength
        ensures { result ≡ record { min = length; max = length } }
    {
        CharLength {
            min: length,
            max: length,
        }
    }

    /// There are at least `min` characters and at most `max`.
    pub const fn between(min: usize, max: usize) -> CharLength
        ensures { result ≡ record { min = min; max = max } }
    {
        CharLength { min, max }
    }
}

impl<T: Chars> Rule<T> for CharLength {
    ghost finds = { λ rule v. length_fault rule.min rule.max (T.answer rule.min rule.max v) };

    #[inline]
    fn holds(&self, value: &T) -> bool {
        value.validate_num_chars(self.min, self.max).is_ok()
    }

    fn find<H: I18n>(&self, alloc: Global, value: &T, h: &H) -> Result<(), RuleError> {
        apply(alloc, value, (self.min, self.max), h)
    }
}
