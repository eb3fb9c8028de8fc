//! Ranges of whole numbers without a sign.
ghost use Rattle.std.specs.Prelude.{◌≡◌, ◌-◌, ◌^◌, nat_lt};
ghost use Rattle.std.specs.Fmt.{decimal};
ghost use Rattle.garde_engines.specs.Bounds.{bounds_answer};

use super::Bounds;
use garde_engines::OutOfBounds;
use std::alloc::{AllocError, Global};

// Holds a number against its bounds.
fn check_unsigned(n: u128, lo: u128, hi: u128) -> Result<(), OutOfBounds>
    ensures { result ≡ bounds_answer lo hi n }
{
    if n < lo {
        Err(OutOfBounds::Lower)
    } else if n > hi {
        Err(OutOfBounds::Upper)
    } else {
        Ok(())
    }
}

impl Bounds for u8 {
    type Size = u8;

    ghost MIN = { 0 };

    ghost MAX = { 2 ^ 8 - 1 };

    const MIN: u8 = u8::MIN;

    const MAX: u8 = u8::MAX;

    ghost answer = { bounds_answer };

    ghost below = { λ bound v. nat_lt v bound };

    ghost above = { nat_lt };

    ghost text = { decimal };

    fn validate_bounds(&self, lo: u8, hi: u8) -> Result<(), OutOfBounds> {
        check_unsigned(*self as u128, lo as u128, hi as u128)
    }

    fn bound_text(alloc: Global, bound: u8) -> Result<String, AllocError> {
        bound.to_string(alloc)
    }
}

impl Bounds for u16 {
    type Size = u16;

    ghost MIN = { 0 };

    ghost MAX = { 2 ^ 16 - 1 };

    const MIN: u16 = u16::MIN;

    const MAX: u16 = u16::MAX;

    ghost answer = { bounds_answer };

    ghost below = { λ bound v. nat_lt v bound };

    ghost above = { nat_lt };

    ghost text = { decimal };

    fn validate_bounds(&self, lo: u16, hi: u16) -> Result<(), OutOfBounds> {
        check_unsigned(*self as u128, lo as u128, hi as u128)
    }

    fn bound_text(alloc: Global, bound: u16) -> Result<String, AllocError> {
        bound.to_string(alloc)
    }
}

impl Bounds for u32 {
    type Size = u32;

    ghost MIN = { 0 };

    ghost MAX = { 2 ^ 32 - 1 };

    const MIN: u32 = u32::MIN;

    const MAX: u32 = u32::MAX;

    ghost answer = { bounds_answer };

    ghost below = { λ bound v. nat_lt v bound };

    ghost above = { nat_lt };

    ghost text = { decimal };

    fn validate_bounds(&self, lo: u32, hi: u32) -> Result<(), OutOfBounds> {
        check_unsigned(*self as u128, lo as u128, hi as u128)
    }

    fn bound_text(alloc: Global, bound: u32) -> Result<String, AllocError> {
        bound.to_string(alloc)
    }
}

impl Bounds for u64 {
    type Size = u64;

    ghost MIN = { 0 };

    ghost MAX = { 2 ^ 64 - 1 };

    const MIN: u64 = u64::MIN;

    const MAX: u64 = u64::MAX;

    ghost answer = { bounds_answer };

    ghost below = { λ bound v. nat_lt v bound };

    ghost above = { nat_lt };

    ghost text = { decimal };

    fn validate_bounds(&self, lo: u64, hi: u64) -> Result<(), OutOfBounds> {
        check_unsigned(*self as u128, lo as u128, hi as u128)
    }

    fn bound_text(alloc: Global, bound: u64) -> Result<String, AllocError> {
        bound.to_string(alloc)
    }
}

impl Bounds for u128 {
    type Size = u128;

    ghost MIN = { 0 };

    ghost MAX = { 2 ^ 128 - 1 };

    const MIN: u128 = u128::MIN;

    const MAX: u128 = u128::MAX;

    ghost answer = { bounds_answer };

    ghost below = { λ bound v. nat_lt v bound };

    ghost above = { nat_lt };

    ghost text = { decimal };

    fn validate_bounds(&self, lo: u128, hi: u128) -> Result<(), OutOfBounds> {
        check_unsigned(*self, lo, hi)
    }

    fn bound_text(alloc: Global, bound: u128) -> Result<String, AllocError> {
        bound.to_string(alloc)
    }
}

impl Bounds for usize {
    type Size = usize;

    ghost MIN = { 0 };

    ghost MAX = { 2 ^ 64 - 1 };

    const MIN: usize = usize::MIN;

    const MAX: usize = usize::MAX;

    ghost answer = { bounds_answer };

    ghost below = { λ bound v. nat_lt v bound };

    ghost above = { nat_lt };

    ghost text = { decimal };

    fn validate_bounds(&self, lo: usize, hi: usize) -> Result<(), OutOfBounds> {
        check_unsigned(*self as u128, lo as u128, hi as u128)
    }

    fn bound_text(alloc: Global, bound: usize) -> Result<String, AllocError> {
        bound.to_string(alloc)
    }
}
