//! The types of whole numbers without a sign, as texts write them.
ghost use Rattle.std.specs.Prelude.{◌≡◌, ◌-◌, ◌^◌};
ghost use Rattle.garde_schema.specs.declared.fault.Integer.TheVariants as integers;
ghost use Rattle.garde_schema.specs.Whole.{up_to};
ghost use Rattle.garde_form.specs.declared.text_type.TextKind.TheVariants.{Number};
ghost use Rattle.garde_form.specs.Texts.{unsigned_text};

use super::read_unsigned;
use crate::text_type::{TextKind, TextType};
use garde_schema::{Integer, U8, U16, U32, U64, Usize};

impl TextType for U8 {
    type Value = u8;

    ghost KIND = { Number integers.U8 0 (2 ^ 8 - 1) };

    const KIND: TextKind<u8> = TextKind::Number(Integer::U8, u8::MIN, u8::MAX);

    ghost parsed = { λ text. up_to (2 ^ 8 - 1) (unsigned_text text) };

    fn read(text: &str) -> Option<u8> {
        u8::try_from(read_unsigned(text)?).ok()
    }
}

impl TextType for U16 {
    type Value = u16;

    ghost KIND = { Number integers.U16 0 (2 ^ 16 - 1) };

    const KIND: TextKind<u16> = TextKind::Number(Integer::U16, u16::MIN, u16::MAX);

    ghost parsed = { λ text. up_to (2 ^ 16 - 1) (unsigned_text text) };

    fn read(text: &str) -> Option<u16> {
        u16::try_from(read_unsigned(text)?).ok()
    }
}

impl TextType for U32 {
    type Value = u32;

    ghost KIND = { Number integers.U32 0 (2 ^ 32 - 1) };

    const KIND: TextKind<u32> = TextKind::Number(Integer::U32, u32::MIN, u32::MAX);

    ghost parsed = { λ text. up_to (2 ^ 32 - 1) (unsigned_text text) };

    fn read(text: &str) -> Option<u32> {
        u32::try_from(read_unsigned(text)?).ok()
    }
}

impl TextType for U64 {
    type Value = u64;

    ghost KIND = { Number integers.U64 0 (2 ^ 64 - 1) };

    const KIND: TextKind<u64> = TextKind::Number(Integer::U64, u64::MIN, u64::MAX);

    ghost parsed = { λ text. unsigned_text text };

    fn read(text: &str) -> Option<u64> {
        read_unsigned(text)
    }
}

impl TextType for Usize {
    type Value = usize;

    ghost KIND = { Number integers.U64 0 (2 ^ 64 - 1) };

    const KIND: TextKind<usize> = TextKind::Number(Integer::U64, usize::MIN, usize::MAX);

    ghost parsed = { λ text. unsigned_text text };

    fn read(text: &str) -> Option<usize> {
        Some(read_unsigned(text)? as usize)
    }
}
