//! `true` and `false`, as texts write them.
ghost use Rattle.std.specs.Prelude.{◌≡◌};
ghost use Rattle.garde_schema.specs.declared.fault.Wanted.TheVariants as wanted;
ghost use Rattle.garde_form.specs.declared.text_type.TextKind.TheVariants.{Quoted};
ghost use Rattle.garde_form.specs.Texts.{flag_text};

use crate::text_type::{TextKind, TextType};
use garde_schema::{Flag, Wanted};

/// `true` or `false`, as `str::parse` reads a `bool`.
impl TextType for Flag {
    type Value = bool;

    ghost KIND = { Quoted wanted.Boolean };

    const KIND: TextKind<bool> = TextKind::Quoted(Wanted::Boolean);

    ghost parsed = { λ text. flag_text text };

    fn read(text: &str) -> Option<bool> {
        if text == "true" {
            Some(true)
        } else if text == "false" {
            Some(false)
        } else {
            None
        }
    }
}
