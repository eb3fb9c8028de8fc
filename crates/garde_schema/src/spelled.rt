//! Types whose values JSON spells.
ghost use Rattle.std.specs.Prelude.{◌≡◌, Some, IfOk};
ghost use Rattle.garde.specs.Validated.{IsValid};
ghost use Rattle.garde_tape.specs.Input.{without_mark};
ghost use Rattle.garde_schema.specs.Bytes.{OfDocument};
ghost use Rattle.garde_schema.specs.FirstRead.{AnswersFirstBytes};
ghost use Rattle.garde_schema.specs.Forms.{forget};
ghost use Rattle.garde_schema.specs.Spelling.{Spelling};

use crate::first_read_error::FirstReadError;
use crate::handler::FormI18n;
use garde::{I18n, Stated};
use garde_tape::Scratch;
use std::alloc::Global;

/// A type whose values JSON spells. `tools/port-garde --body` writes the statement beside the type.
pub trait Spelled {
    /// What JSON spells of the type: its values, and the faults of what spells none or breaks a rule.
    ghost spelled: { Spelling Self };
}

/// A type whose values JSON spells under a context, which is that of its rules. `tools/port-garde
/// --spelled` writes the statement beside the type.
pub trait SpelledUnder: Stated {
    /// What JSON spells of the type under a context.
    ghost spelled: { Self.Context → Spelling Self };
}

/// A type whose values are the bodies that a library checks.
pub trait ReadBody<'a>: Spelled + Stated + Drop {
    /// Reads a body: the value that it spells, or at most so many faults of its form and of its rules,
    /// as `read_json_first` does. What the rules ask is known of the value.
    fn read_body<H: I18n + FormI18n>(
        alloc: Global,
        bytes: &'a [u8],
        scratch: &'a mut Scratch,
        most: usize,
        h: &H,
    ) -> Result<Self, FirstReadError>
        ensures answer { AnswersFirstBytes
            (λ j. ⟦<Self as Spelled>⟧.spelled.visits (H.form_text h.now) j) (H.text h.now)
            most (without_mark bytes.now) (forget result) }
        ensures value { IfOk result (λ v. OfDocument (without_mark bytes.now)
            (λ j. ⟦<Self as Spelled>⟧.spelled.value j ≡ Some v)) }
        ensures valid { IfOk result (λ v. IsValid ⟦<Self as Stated>⟧.visits v) };
}
