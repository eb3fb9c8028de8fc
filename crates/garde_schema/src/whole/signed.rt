//! The types of whole numbers with a sign.
ghost use Rattle.std.specs.Prelude.{◌≡◌, ◌-◌, ◌^◌, pos, negsuc, if◌then◌else◌};
ghost use Rattle.garde_schema.specs.declared.fault.Integer.TheVariants as integers;
ghost use Rattle.garde_schema.specs.Whole.{between, signed_value};

use super::WholeType;
use crate::fault::Integer;
use garde_tape::Tree;

/// `i8`.
#[derive(Clone, Copy, Debug)]
pub struct I8;

impl WholeType for I8 {
    type Number = i8;

    ghost integer = { λ _. integers.I8 };

    ghost spelled = { λ _ j. between (negsuc (2 ^ 7 - 1)) (pos (2 ^ 7 - 1)) (signed_value j) };

    ghost nearest = { λ _ below. if below then negsuc (2 ^ 7 - 1) else pos (2 ^ 7 - 1) };

    fn integer(&self) -> Integer {
        Integer::I8
    }

    fn spelled(&self, tree: &Tree<'_, '_>) -> Option<i8> {
        i8::try_from(tree.as_i64()?).ok()
    }

    fn nearest(&self, below: bool) -> i8 {
        if below { i8::MIN } else { i8::MAX }
    }
}

/// `i16`.
#[derive(Clone, Copy, Debug)]
pub struct I16;

impl WholeType for I16 {
    type Number = i16;

    ghost integer = { λ _. integers.I16 };

    ghost spelled = { λ _ j. between (negsuc (2 ^ 15 - 1)) (pos (2 ^ 15 - 1)) (signed_value j) };

    ghost nearest = { λ _ below. if below then negsuc (2 ^ 15 - 1) else pos (2 ^ 15 - 1) };

    fn integer(&self) -> Integer {
        Integer::I16
    }

    fn spelled(&self, tree: &Tree<'_, '_>) -> Option<i16> {
        i16::try_from(tree.as_i64()?).ok()
    }

    fn nearest(&self, below: bool) -> i16 {
        if below { i16::MIN } else { i16::MAX }
    }
}

/// `i32`.
#[derive(Clone, Copy, Debug)]
pub struct I32;

impl WholeType for I32 {
    type Number = i32;

    ghost integer = { λ _. integers.I32 };

    ghost spelled = { λ _ j. between (negsuc (2 ^ 31 - 1)) (pos (2 ^ 31 - 1)) (signed_value j) };

    ghost nearest = { λ _ below. if below then negsuc (2 ^ 31 - 1) else pos (2 ^ 31 - 1) };

    fn integer(&self) -> Integer {
        Integer::I32
    }

    fn spelled(&self, tree: &Tree<'_, '_>) -> Option<i32> {
        i32::try_from(tree.as_i64()?).ok()
    }

    fn nearest(&self, below: bool) -> i32 {
        if below { i32::MIN } else { i32::MAX }
    }
}

/// `i64`.
#[derive(Clone, Copy, Debug)]
pub struct I64;

impl WholeType for I64 {
    type Number = i64;

    ghost integer = { λ _. integers.I64 };

    ghost spelled = { λ _ j. signed_value j };

    ghost nearest = { λ _ below. if below then negsuc (2 ^ 63 - 1) else pos (2 ^ 63 - 1) };

    fn integer(&self) -> Integer {
        Integer::I64
    }

    fn spelled(&self, tree: &Tree<'_, '_>) -> Option<i64> {
        tree.as_i64()
    }

    fn nearest(&self, below: bool) -> i64 {
        if below { i64::MIN } else { i64::MAX }
    }
}

/// `isize`.
#[derive(Clone, Copy, Debug)]
pub struct Isize;

impl WholeType for Isize {
    type Number = isize;

    ghost integer = { λ _. integers.I64 };

    ghost spelled = { λ _ j. signed_value j };

    ghost nearest = { λ _ below. if below then negsuc (2 ^ 63 - 1) else pos (2 ^ 63 - 1) };

    fn integer(&self) -> Integer {
        Integer::I64
    }

    fn spelled(&self, tree: &Tree<'_, '_>) -> Option<isize> {
        Some(tree.as_i64()? as isize)
    }

    fn nearest(&self, below: bool) -> isize {
        if below { isize::MIN } else { isize::MAX }
    }
}
