//! UUIDs.
ghost use Rattle.std.specs.Prelude.{◌≡◌};
ghost use Rattle.garde_form.specs.declared.text_type.TextKind.TheVariants.{Quoted};
ghost use Rattle.garde_schema.specs.declared.fault.Wanted.TheVariants as wanted;
ghost use Rattle.uuid.specs.Text.{parsed as uuid_of};

use garde_form::{TextKind, TextType};
use garde_schema::Wanted;

/// A text that writes a UUID, as the crate `uuid` reads it: 32 hexadecimal digits, alone or
/// with hyphens (RFC 9562, section 4); these with hyphens in braces, or behind `urn:uuid:`.
#[derive(Clone, Copy, Debug)]
pub struct Uuid;

impl TextType for Uuid {
    type Value = uuid::Uuid;

    ghost KIND = { Quoted wanted.Uuid };

    const KIND: TextKind<uuid::Uuid> = TextKind::Quoted(Wanted::Uuid);

    ghost parsed = { λ text. uuid_of text };

    fn read(text: &str) -> Option<uuid::Uuid> {
        match uuid::Uuid::parse_str(text) {
            Ok(value) => Some(value),
            Err(_) => None,
        }
    }
}
