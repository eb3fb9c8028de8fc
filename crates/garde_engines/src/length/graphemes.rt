//! The length in grapheme clusters.
ghost use Rattle.std.specs.Prelude.{◌≡◌, ◌-◌, ◌^◌, ℕ, string_bytes, Result};
ghost use Rattle.std.specs.Box.{boxed_str_bytes};
ghost use Rattle.std.specs.Cow.{cow_str_bytes};
ghost use Rattle.std.specs.Rc.{rc_str_bytes};
ghost use Rattle.garde_engines.specs.Applies.{Applies};
ghost use Rattle.garde_engines.specs.Bounds.{bounds_answer, length_fault, option_answer};
ghost use Rattle.garde_engines.specs.Counts.{grapheme_count};
ghost use Rattle.garde_engines.specs.declared.bounds.OutOfBounds.{OutOfBounds};

use crate::bounds::{OutOfBounds, check_bounds, length_error};
use crate::count::count_graphemes;
use crate::rule::Rule;
use garde_i18n::I18n;
use garde_report::RuleError;
use std::alloc::Global;
use std::borrow::CowStr;
use std::boxed::BoxedStr;
use std::rc::RcStr;

/// A value that has a number of grapheme clusters: a text.
///
/// The clusters are the extended grapheme clusters of UAX #29, as `unicode_segmentation` cuts them.
pub trait HasGraphemes {
    /// How many extended grapheme clusters the value has.
    ghost grapheme_len: { Self → ℕ };

    /// How many extended grapheme clusters the value has.
    fn num_graphemes(&self) -> usize
        ensures { result ≡ grapheme_len self.now };
}

impl HasGraphemes for String {
    ghost grapheme_len = { λ v. grapheme_count (string_bytes v) };

    fn num_graphemes(&self) -> usize {
        count_graphemes(self.as_str())
    }
}

impl HasGraphemes for &String {
    ghost grapheme_len = { λ v. grapheme_count (string_bytes v.now) };

    fn num_graphemes(&self) -> usize {
        count_graphemes(self.as_str())
    }
}

impl HasGraphemes for &str {
    ghost grapheme_len = { λ v. grapheme_count v.now };

    fn num_graphemes(&self) -> usize {
        count_graphemes(self)
    }
}

impl HasGraphemes for CowStr<'_> {
    ghost grapheme_len = { λ v. grapheme_count (cow_str_bytes v) };

    fn num_graphemes(&self) -> usize {
        count_graphemes(self.as_str())
    }
}

impl HasGraphemes for RcStr {
    ghost grapheme_len = { λ v. grapheme_count (rc_str_bytes v) };

    fn num_graphemes(&self) -> usize {
        count_graphemes(self.as_str())
    }
}

impl HasGraphemes for BoxedStr {
    ghost grapheme_len = { λ v. grapheme_count (boxed_str_bytes v) };

    fn num_graphemes(&self) -> usize {
        count_graphemes(self.as_str())
    }
}

/// A value whose number of grapheme clusters can be held against bounds: a value that has grapheme
/// clusters, and an option of one.
pub trait Graphemes {
    /// What holding the number of grapheme clusters against a lower and an upper bound gives.
    ghost answer: { ℕ → ℕ → Self → Result (Unit {0}) OutOfBounds };

    /// Returns Ok where there are at least `min` and at most `max` grapheme clusters, and else
    /// which bound the number is beyond. A number that is beyond both, since `min` is above `max`,
    /// is below the lower one. An option without a value is within all bounds.
    fn validate_num_graphemes(&self, min: usize, max: usize) -> Result<(), OutOfBounds>
        ensures { result ≡ answer min max self.now };
}

impl<T: HasGraphemes> Graphemes for T {
    ghost answer = { λ min max v. bounds_answer min max (T.grapheme_len v) };

    fn validate_num_graphemes(&self, min: usize, max: usize) -> Result<(), OutOfBounds> {
        check_bounds(self.num_graphemes(), min, max)
    }
}

impl<T: Graphemes> Graphemes for Option<T> {
    ghost answer = { λ min max. option_answer (T.answer min max) };

    fn validate_num_graphemes(&self, min: usize, max: usize) -> Result<(), OutOfBounds> {
        match self {
            None => Ok(()),
            Some(v) => v.validate_num_graphemes(min, max),
        }
    }
}

/// Returns Ok where there are at least as many grapheme clusters as the first of `args` and at most
/// as many as the second, and else the fault with the handler's text of the bound that the number
/// is beyond.
///
/// `RuleError::Memory` is returned only where the rule does not hold.
pub fn apply<T: Graphemes, H: I18n>(
    alloc: Global,
    v: &T,
    args: (usize, usize),
    h: &H,
) -> Result<(), RuleError>
    ensures { Applies (length_fault args.0 args.1 (T.answer args.0 args.1 v.now)) (H.text h.now) result }
{
    let (min, max) = args;
    match v.validate_num_graphemes(min, max) {
        Ok(()) => Ok(()),
        Err(bound) => Err(length_error(alloc, bound, min, max, h)),
    }
}

/// The rule as a value: there are at least `min` grapheme clusters and at most `max`.
#[derive(Clone, Copy, Debug, PartialEq, Eq)]
pub struct GraphemeLength {
    /// The least number of clusters.
    pub min: usize,
    /// The greatest number of clusters.
    pub max: usize,
}

impl GraphemeLength {
    /// There are at least `min` clusters.
    pub const fn min(min: usize) -> GraphemeLength
        ensures { result ≡ record { min = min; max = 2 ^ 64 - 1 } }
    {
        GraphemeLength {
            min,
            max: usize::MAX,
        }
    }

    /// There are at most `max` clusters.
    pub const fn max(max: usize) -> GraphemeLength
        ensures { result ≡ record { min = 0; max = max } }
    {
        GraphemeLength { min: 0, max }
    }

    /// There are just so many clusters.
    pub const fn equal(length: usize) -> GraphemeLength
        ensures { result ≡ record { min = length; max = length } }
    {
        GraphemeLength {
            min: length,
            max: length,
        }
    }

    /// There are at least `min` clusters and at most `max`.
    pub const fn between(min: usize, max: usize) -> GraphemeLength
        ensures { result ≡ record { min = min; max = max } }
    {
        GraphemeLength { min, max }
    }
}

impl<T: Graphemes> Rule<T> for GraphemeLength {
    ghost finds = { λ rule v. length_fault rule.min rule.max (T.answer rule.min rule.max v) };

    #[inline]
    fn holds(&self, value: &T) -> bool {
        value.validate_num_graphemes(self.min, self.max).is_ok()
    }

    fn find<H: I18n>(&self, alloc: Global, value: &T, h: &H) -> Result<(), RuleError> {
        apply(alloc, value, (self.min, self.max), h)
    }
}
