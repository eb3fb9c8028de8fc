//! The types of whole numbers with a sign, as texts write them.
ghost use Rattle.std.specs.Prelude.{◌≡◌, ◌-◌, ◌^◌, pos, negsuc};
ghost use Rattle.garde_schema.specs.declared.fault.Integer.TheVariants as integers;
ghost use Rattle.garde_schema.specs.Whole.{between};
ghost use Rattle.garde_form.specs.declared.text_type.TextKind.TheVariants.{Number};
ghost use Rattle.garde_form.specs.Texts.{signed_text};

use super::read_signed;
use crate::text_type::{TextKind, TextType};
use garde_schema::{I8, I16, I32, I64, Integer, Isize};

impl TextType for I8 {
    type Value = i8;

    ghost KIND = { Number integers.I8 (negsuc (2 ^ 7 - 1)) (pos (2 ^ 7 - 1)) };

    const KIND: TextKind<i8> = TextKind::Number(Integer::I8, i8::MIN, i8::MAX);

    ghost parsed = { λ text. between (negsuc (2 ^ 7 - 1)) (pos (2 ^ 7 - 1)) (signed_text text) };

    fn read(text: &str) -> Option<i8> {
        i8::try_from(read_signed(text)?).ok()
    }
}

impl TextType for I16 {
    type Value = i16;

    ghost KIND = { Number integers.I16 (negsuc (2 ^ 15 - 1)) (pos (2 ^ 15 - 1)) };

    const KIND: TextKind<i16> = TextKind::Number(Integer::I16, i16::MIN, i16::MAX);

    ghost parsed = { λ text. between (negsuc (2 ^ 15 - 1)) (pos (2 ^ 15 - 1)) (signed_text text) };

    fn read(text: &str) -> Option<i16> {
        i16::try_from(read_signed(text)?).ok()
    }
}

impl TextType for I32 {
    type Value = i32;

    ghost KIND = { Number integers.I32 (negsuc (2 ^ 31 - 1)) (pos (2 ^ 31 - 1)) };

    const KIND: TextKind<i32> = TextKind::Number(Integer::I32, i32::MIN, i32::MAX);

    ghost parsed = { λ text. between (negsuc (2 ^ 31 - 1)) (pos (2 ^ 31 - 1)) (signed_text text) };

    fn read(text: &str) -> Option<i32> {
        i32::try_from(read_signed(text)?).ok()
    }
}

impl TextType for I64 {
    type Value = i64;

    ghost KIND = { Number integers.I64 (negsuc (2 ^ 63 - 1)) (pos (2 ^ 63 - 1)) };

    const KIND: TextKind<i64> = TextKind::Number(Integer::I64, i64::MIN, i64::MAX);

    ghost parsed = { λ text. signed_text text };

    fn read(text: &str) -> Option<i64> {
        read_signed(text)
    }
}

impl TextType for Isize {
    type Value = isize;

    ghost KIND = { Number integers.I64 (negsuc (2 ^ 63 - 1)) (pos (2 ^ 63 - 1)) };

    const KIND: TextKind<isize> = TextKind::Number(Integer::I64, isize::MIN, isize::MAX);

    ghost parsed = { λ text. signed_text text };

    fn read(text: &str) -> Option<isize> {
        Some(read_signed(text)? as isize)
    }
}
