//! The types of whole numbers without a sign.
ghost use Rattle.std.specs.Prelude.{◌≡◌, ◌-◌, ◌^◌, if◌then◌else◌};
ghost use Rattle.garde_schema.specs.declared.fault.Integer.TheVariants as integers;
ghost use Rattle.garde_schema.specs.Whole.{up_to, unsigned_value};

use super::WholeType;
use crate::fault::Integer;
use garde_tape::Tree;

/// `u8`.
#[derive(Clone, Copy, Debug)]
pub struct U8;

impl WholeType for U8 {
    type Number = u8;

    ghost integer = { λ _. integers.U8 };

    ghost spelled = { λ _ j. up_to (2 ^ 8 - 1) (unsigned_value j) };

    ghost nearest = { λ _ below. if below then 0 else 2 ^ 8 - 1 };

    fn integer(&self) -> Integer {
        Integer::U8
    }

    fn spelled(&self, tree: &Tree<'_, '_>) -> Option<u8> {
        u8::try_from(tree.as_u64()?).ok()
    }

    fn nearest(&self, below: bool) -> u8 {
        if below { u8::MIN } else { u8::MAX }
    }
}

/// `u16`.
#[derive(Clone, Copy, Debug)]
pub struct U16;

impl WholeType for U16 {
    type Number = u16;

    ghost integer = { λ _. integers.U16 };

    ghost spelled = { λ _ j. up_to (2 ^ 16 - 1) (unsigned_value j) };

    ghost nearest = { λ _ below. if below then 0 else 2 ^ 16 - 1 };

    fn integer(&self) -> Integer {
        Integer::U16
    }

    fn spelled(&self, tree: &Tree<'_, '_>) -> Option<u16> {
        u16::try_from(tree.as_u64()?).ok()
    }

    fn nearest(&self, below: bool) -> u16 {
        if below { u16::MIN } else { u16::MAX }
    }
}

/// `u32`.
#[derive(Clone, Copy, Debug)]
pub struct U32;

impl WholeType for U32 {
    type Number = u32;

    ghost integer = { λ _. integers.U32 };

    ghost spelled = { λ _ j. up_to (2 ^ 32 - 1) (unsigned_value j) };

    ghost nearest = { λ _ below. if below then 0 else 2 ^ 32 - 1 };

    fn integer(&self) -> Integer {
        Integer::U32
    }

    fn spelled(&self, tree: &Tree<'_, '_>) -> Option<u32> {
        u32::try_from(tree.as_u64()?).ok()
    }

    fn nearest(&self, below: bool) -> u32 {
        if below { u32::MIN } else { u32::MAX }
    }
}

/// `u64`.
#[derive(Clone, Copy, Debug)]
pub struct U64;

impl WholeType for U64 {
    type Number = u64;

    ghost integer = { λ _. integers.U64 };

    ghost spelled = { λ _ j. unsigned_value j };

    ghost nearest = { λ _ below. if below then 0 else 2 ^ 64 - 1 };

    fn integer(&self) -> Integer {
        Integer::U64
    }

    fn spelled(&self, tree: &Tree<'_, '_>) -> Option<u64> {
        tree.as_u64()
    }

    fn nearest(&self, below: bool) -> u64 {
        if below { u64::MIN } else { u64::MAX }
    }
}

/// `usize`.
#[derive(Clone, Copy, Debug)]
pub struct Usize;

impl WholeType for Usize {
    type Number = usize;

    ghost integer = { λ _. integers.U64 };

    ghost spelled = { λ _ j. unsigned_value j };

    ghost nearest = { λ _ below. if below then 0 else 2 ^ 64 - 1 };

    fn integer(&self) -> Integer {
        Integer::U64
    }

    fn spelled(&self, tree: &Tree<'_, '_>) -> Option<usize> {
        Some(tree.as_u64()? as usize)
    }

    fn nearest(&self, below: bool) -> usize {
        if below { usize::MIN } else { usize::MAX }
    }
}
