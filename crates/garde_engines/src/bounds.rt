//! Bounds, and which of them a value is beyond.
ghost use Rattle.std.specs.Prelude.{◌≡◌, Some};
ghost use Rattle.garde_engines.specs.Applies.{Applies};
ghost use Rattle.garde_engines.specs.Bounds.{bounds_answer, length_fault};
ghost use Rattle.garde_engines.specs.Beyond.{beyond_text};

use garde_i18n::I18n;
use garde_report::RuleError;
use std::alloc::Global;
use std::fmt;

/// Which bound a value is beyond.
#[derive(Debug, Clone, Copy, PartialEq, Eq)]
pub enum OutOfBounds {
    /// It is below the lower one.
    Lower,
    /// It is above the upper one.
    Upper,
}

/// Which bound it is, in words.
impl fmt::Display for OutOfBounds {
    ghost output = { λ bound. Some (beyond_text bound) };

    fn fmt<W: fmt::Write>(&self, f: &mut fmt::Formatter<W>) -> fmt::Result {
        f.write_str(match self {
            OutOfBounds::Lower => "below the lower bound",
            OutOfBounds::Upper => "above the upper bound",
        })
    }
}

impl std::error::Error for OutOfBounds {}

// Holds a length against its bounds.
pub(crate) fn check_bounds(length: usize, min: usize, max: usize) -> Result<(), OutOfBounds>
    ensures { result ≡ bounds_answer min max length }
{
    if length < min {
        Err(OutOfBounds::Lower)
    } else if length > max {
        Err(OutOfBounds::Upper)
    } else {
        Ok(())
    }
}

// What a rule returns of a length that is beyond this bound.
pub(crate) fn length_error<H: I18n>(
    alloc: Global,
    bound: OutOfBounds,
    min: usize,
    max: usize,
    h: &H,
) -> RuleError
    ensures { Applies (length_fault min max (Err bound)) (H.text h.now) (Err result) }
{
    match bound {
        OutOfBounds::Lower => RuleError::of(alloc, h.length_lower_than(alloc, min)),
        OutOfBounds::Upper => RuleError::of(alloc, h.length_greater_than(alloc, max)),
    }
}
