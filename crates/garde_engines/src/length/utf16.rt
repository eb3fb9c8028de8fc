//! The length in code units of UTF-16.
ghost use Rattle.std.specs.Prelude.{◌≡◌, ◌-◌, ◌^◌, ℕ, string_bytes, Result};
ghost use Rattle.std.specs.Box.{boxed_str_bytes};
ghost use Rattle.std.specs.Cow.{cow_str_bytes};
ghost use Rattle.std.specs.Rc.{rc_str_bytes};
ghost use Rattle.garde_engines.specs.Applies.{Applies};
ghost use Rattle.garde_engines.specs.Bounds.{bounds_answer, length_fault, option_answer};
ghost use Rattle.garde_engines.specs.Counts.{unit_count};
ghost use Rattle.garde_engines.specs.declared.bounds.OutOfBounds.{OutOfBounds};

use crate::bounds::{OutOfBounds, check_bounds, length_error};
use crate::count::{check_units, count_units};
use crate::rule::Rule;
use garde_i18n::I18n;
use garde_report::RuleError;
use std::alloc::Global;
use std::borrow::CowStr;
use std::boxed::BoxedStr;
use std::rc::RcStr;

/// A value that has a number of code units in UTF-16: a text.
///
/// A character up to U+FFFF is one unit, and each above is two.
pub trait HasUtf16CodeUnits {
    /// How many code units of UTF-16 the value has.
    ghost unit_len: { Self → ℕ };

    /// How many code units of UTF-16 the value has.
    fn num_code_units(&self) -> usize
        ensures { result ≡ unit_len self.now };

    /// Holds the number of code units against bounds, as `OutOfBounds` says.
    fn check_num_code_units(&self, min: usize, max: usize) -> Result<(), OutOfBounds>
        ensures { result ≡ bounds_answer min max (unit_len self.now) }
    {
        check_bounds(self.num_code_units(), min, max)
    }
}

impl HasUtf16CodeUnits for String {
    ghost unit_len = { λ v. unit_count (string_bytes v) };

    fn num_code_units(&self) -> usize {
        count_units(self.as_str())
    }

    fn check_num_code_units(&self, min: usize, max: usize) -> Result<(), OutOfBounds> {
        check_units(self.as_str(), min, max)
    }
}

impl HasUtf16CodeUnits for &String {
    ghost unit_len = { λ v. unit_count (string_bytes v.now) };

    fn num_code_units(&self) -> usize {
        count_units(self.as_str())
    }

    fn check_num_code_units(&self, min: usize, max: usize) -> Result<(), OutOfBounds> {
        check_units(self.as_str(), min, max)
    }
}

impl HasUtf16CodeUnits for &str {
    ghost unit_len = { λ v. unit_count v.now };

    fn num_code_units(&self) -> usize {
        count_units(self)
    }

    fn check_num_code_units(&self, min: usize, max: usize) -> Result<(), OutOfBounds> {
        check_units(self, min, max)
    }
}

impl HasUtf16CodeUnits for CowStr<'_> {
    ghost unit_len = { λ v. unit_count (cow_str_bytes v) };

    fn num_code_units(&self) -> usize {
        count_units(self.as_str())
    }

    fn check_num_code_units(&self, min: usize, max: usize) -> Result<(), OutOfBounds> {
        check_units(self.as_str(), min, max)
    }
}

impl HasUtf16CodeUnits for RcStr {
    ghost unit_len = { λ v. unit_count (rc_str_bytes v) };

    fn num_code_units(&self) -> usize {
        count_units(self.as_str())
    }

    fn check_num_code_units(&self, min: usize, max: usize) -> Result<(), OutOfBounds> {
        check_units(self.as_str(), min, max)
    }
}

impl HasUtf16CodeUnits for BoxedStr {
    ghost unit_len = { λ v. unit_count (boxed_str_bytes v) };

    fn num_code_units(&self) -> usize {
        count_units(self.as_str())
    }

    fn check_num_code_units(&self, min: usize, max: usize) -> Result<(), OutOfBounds> {
        check_units(self.as_str(), min, max)
    }
}

/// A value whose number of code units can be held against bounds: a value that has code units, and
/// an option of one.
pub trait Utf16CodeUnits {
    /// What holding the number of code units against a lower and an upper bound gives.
    ghost answer: { ℕ → ℕ → Self → Result (Unit {0}) OutOfBounds };

    /// Returns Ok where there are at least `min` and at most `max` code units, and else which bound
    /// the number is beyond. A number that is beyond both, since `min` is above `max`, is below the
    /// lower one. An option without a value is within all bounds.
    fn validate_num_code_units(&self, min: usize, max: usize) -> Result<(), OutOfBounds>
        ensures { result ≡ answer min max self.now };
}

impl<T: HasUtf16CodeUnits> Utf16CodeUnits for T {
    ghost answer = { λ min max v. bounds_answer min max (T.unit_len v) };

    fn validate_num_code_units(&self, min: usize, max: usize) -> Result<(), OutOfBounds> {
        self.check_num_code_units(min, max)
    }
}

impl<T: Utf16CodeUnits> Utf16CodeUnits for Option<T> {
    ghost answer = { λ min max. option_answer (T.answer min max) };

    fn validate_num_code_units(&self, min: usize, max: usize) -> Result<(), OutOfBounds> {
        match self {
            None => Ok(()),
            Some(v) => v.validate_num_code_units(min, max),
        }
    }
}

/// Returns Ok where there are at least as many code units as the first of `args` and at most as
/// many as the second, and else the fault with the handler's text of the bound that the number is
/// beyond.
///
/// `RuleError::Memory` is returned only where the rule does not hold.
pub fn apply<T: Utf16CodeUnits, H: I18n>(
    alloc: Global,
    v: &T,
    args: (usize, usize),
    h: &H,
) -> Result<(), RuleError>
    ensures { Applies (length_fault args.0 args.1 (T.answer args.0 args.1 v.now)) (H.text h.now) result }
{
    let (min, max) = args;
    match v.validate_num_code_units(min, max) {
        Ok(()) => Ok(()),
        Err(bound) => Err(length_error(alloc, bound, min, max, h)),
    }
}

/// The rule as a value: there are at least `min` code units and at most `max`.
#[derive(Clone, Copy, Debug, PartialEq, Eq)]
pub struct Utf16Length {
    /// The least number of code units.
    pub min: usize,
    /// The greatest number of code units.
    pub max: usize,
}

impl Utf16Length {
    /// There are at least `min` code units.
    pub const fn min(min: usize) -> Utf16Length
        ensures { result ≡ record { min = min; max = 2 ^ 64 - 1 } }
    {
        Utf16Length {
            min,
            max: usize::MAX,
        }
    }

    /// There are at most `max` code units.
    pub const fn max(max: usize) -> Utf16Length
        ensures { result ≡ record { min = 0; max = max } }
    {
        Utf16Length { min: 0, max }
    }

    /// There are just so many code units.
    pub const fn equal(length: usize) -> Utf16Length
        ensures { result ≡ record { min = length; max = length } }
    {
        Utf16Length {
            min: length,
            max: length,
        }
    }

    /// There are at least `min` code units and at most `max`.
    pub const fn between(min: usize, max: usize) -> Utf16Length
        ensures { result ≡ record { min = min; max = max } }
    {
        Utf16Length { min, max }
    }
}

impl<T: Utf16CodeUnits> Rule<T> for Utf16Length {
    ghost finds = { λ rule v. length_fault rule.min rule.max (T.answer rule.min rule.max v) };

    #[inline]
    fn holds(&self, value: &T) -> bool {
        value.validate_num_code_units(self.min, self.max).is_ok()
    }

    fn find<H: I18n>(&self, alloc: Global, value: &T, h: &H) -> Result<(), RuleError> {
        apply(alloc, value, (self.min, self.max), h)
    }
}
