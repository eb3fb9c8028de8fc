//! Ranges of whole numbers with a sign.
ghost use Rattle.std.specs.Prelude.{◌≡◌, ◌-◌, ◌^◌, int_lt, pos, negsuc};
ghost use Rattle.std.specs.Fmt.{signed_decimal};
ghost use Rattle.garde_rules.specs.Range.{int_bounds_answer};

use super::Bounds;
use garde_engines::OutOfBounds;
use std::alloc::{AllocError, Global};

// Holds a number against its bounds.
fn check_signed(n: i128, lo: i128, hi: i128) -> Result<(), OutOfBounds>
    ensures { result ≡ int_bounds_answer lo hi n }
{
    if n < lo {
        Err(OutOfBounds::Lower)
    } else if n > hi {
        Err(OutOfBounds::Upper)
    } else {
        Ok(())
    }
}

impl Bounds for i8 {
    type Size = i8;

    ghost MIN = { negsuc (2 ^ 7 - 1) };

    ghost MAX = { pos (2 ^ 7 - 1) };

    const MIN: i8 = i8::MIN;

    const MAX: i8 = i8::MAX;

    ghost answer = { int_bounds_answer };

    ghost below = { λ bound v. int_lt v bound };

    ghost above = { int_lt };

    ghost text = { signed_decimal };

    fn validate_bounds(&self, lo: i8, hi: i8) -> Result<(), OutOfBounds> {
        check_signed(*self as i128, lo as i128, hi as i128)
    }

    fn bound_text(alloc: Global, bound: i8) -> Result<String, AllocError> {
        bound.to_string(alloc)
    }
}

impl Bounds for i16 {
    type Size = i16;

    ghost MIN = { negsuc (2 ^ 15 - 1) };

    ghost MAX = { pos (2 ^ 15 - 1) };

    const MIN: i16 = i16::MIN;

    const MAX: i16 = i16::MAX;

    ghost answer = { int_bounds_answer };

    ghost below = { λ bound v. int_lt v bound };

    ghost above = { int_lt };

    ghost text = { signed_decimal };

    fn validate_bounds(&self, lo: i16, hi: i16) -> Result<(), OutOfBounds> {
        check_signed(*self as i128, lo as i128, hi as i128)
    }

    fn bound_text(alloc: Global, bound: i16) -> Result<String, AllocError> {
        bound.to_string(alloc)
    }
}

impl Bounds for i32 {
    type Size = i32;

    ghost MIN = { negsuc (2 ^ 31 - 1) };

    ghost MAX = { pos (2 ^ 31 - 1) };

    const MIN: i32 = i32::MIN;

    const MAX: i32 = i32::MAX;

    ghost answer = { int_bounds_answer };

    ghost below = { λ bound v. int_lt v bound };

    ghost above = { int_lt };

    ghost text = { signed_decimal };

    fn validate_bounds(&self, lo: i32, hi: i32) -> Result<(), OutOfBounds> {
        check_signed(*self as i128, lo as i128, hi as i128)
    }

    fn bound_text(alloc: Global, bound: i32) -> Result<String, AllocError> {
        bound.to_string(alloc)
    }
}

impl Bounds for i64 {
    type Size = i64;

    ghost MIN = { negsuc (2 ^ 63 - 1) };

    ghost MAX = { pos (2 ^ 63 - 1) };

    const MIN: i64 = i64::MIN;

    const MAX: i64 = i64::MAX;

    ghost answer = { int_bounds_answer };

    ghost below = { λ bound v. int_lt v bound };

    ghost above = { int_lt };

    ghost text = { signed_decimal };

    fn validate_bounds(&self, lo: i64, hi: i64) -> Result<(), OutOfBounds> {
        check_signed(*self as i128, lo as i128, hi as i128)
    }

    fn bound_text(alloc: Global, bound: i64) -> Result<String, AllocError> {
        bound.to_string(alloc)
    }
}

impl Bounds for i128 {
    type Size = i128;

    ghost MIN = { negsuc (2 ^ 127 - 1) };

    ghost MAX = { pos (2 ^ 127 - 1) };

    const MIN: i128 = i128::MIN;

    const MAX: i128 = i128::MAX;

    ghost answer = { int_bounds_answer };

    ghost below = { λ bound v. int_lt v bound };

    ghost above = { int_lt };

    ghost text = { signed_decimal };

    fn validate_bounds(&self, lo: i128, hi: i128) -> Result<(), OutOfBounds> {
        check_signed(*self, lo, hi)
    }

    fn bound_text(alloc: Global, bound: i128) -> Result<String, AllocError> {
        bound.to_string(alloc)
    }
}

impl Bounds for isize {
    type Size = isize;

    ghost MIN = { negsuc (2 ^ 63 - 1) };

    ghost MAX = { pos (2 ^ 63 - 1) };

    const MIN: isize = isize::MIN;

    const MAX: isize = isize::MAX;

    ghost answer = { int_bounds_answer };

    ghost below = { λ bound v. int_lt v bound };

    ghost above = { int_lt };

    ghost text = { signed_decimal };

    fn validate_bounds(&self, lo: isize, hi: isize) -> Result<(), OutOfBounds> {
        check_signed(*self as i128, lo as i128, hi as i128)
    }

    fn bound_text(alloc: Global, bound: isize) -> Result<String, AllocError> {
        bound.to_string(alloc)
    }
}
