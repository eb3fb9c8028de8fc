//! Texts of one character.
ghost use Rattle.std.specs.Prelude.{◌≡◌};
ghost use Rattle.garde_schema.specs.declared.fault.Wanted.TheVariants as wanted;
ghost use Rattle.garde_form.specs.declared.text_type.TextKind.TheVariants.{Quoted};
ghost use Rattle.garde_form.specs.Texts.{character_text};

use crate::text_type::{TextKind, TextType};
use garde_schema::Wanted;

/// A text of one character, as `str::parse` reads a `char`: `Parsed(Character, ())`.
#[derive(Clone, Copy, Debug)]
pub struct Character;

impl TextType for Character {
    type Value = char;

    ghost KIND = { Quoted wanted.Character };

    const KIND: TextKind<char> = TextKind::Quoted(Wanted::Character);

    ghost parsed = { λ text. character_text text };

    fn read(text: &str) -> Option<char> {
        match text.parse::<char>() {
            Ok(character) => Some(character),
            Err(_) => None,
        }
    }
}
