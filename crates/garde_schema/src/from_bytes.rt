//! Reading bytes by a form.
ghost use Rattle.std.specs.Prelude.{◌≡◌, ◌<◌, ◌-◌, ◌^◌, Some, IfOk};
ghost use Rattle.garde_tape.specs.Input.{without_mark};
ghost use Rattle.garde_schema.specs.Bytes.{AnswersBytes, OfDocument};
ghost use Rattle.garde_schema.specs.FirstRead.{AnswersFirstBytes, IsFirstRead};
ghost use Rattle.garde_schema.specs.Forms.{forget};

use crate::first_read_error::FirstReadError;
use crate::form::Form;
use crate::handler::FormI18n;
use crate::read_error::ReadError;
use crate::reading::read_first;
use garde::I18n;
use garde_tape::{Scratch, Tree, parse_bytes};
use std::alloc::Global;

/// Reads bytes as one JSON text (RFC 8259), nested no deeper than 128, by a form: the value that it
/// spells, or a report of every fault of its form and of the rules.
///
/// The value borrows from the bytes and from the scratch, which is kept from one read to the next.
/// Bytes that are no JSON text give `ReadError::Parse` with the line and the column, and no report.
pub fn read_json<'a, F: Form<'a>, H: I18n + FormI18n>(
    alloc: Global,
    input: &'a [u8],
    scratch: &'a mut Scratch,
    form: &F,
    h: &H,
) -> Result<F::Out, ReadError>
    ensures answer { AnswersBytes (λ j. F.visits form.now (H.form_text h.now) j) (H.text h.now)
        (without_mark input.now) (forget result) }
    ensures value { IfOk result (λ out. OfDocument (without_mark input.now) (λ j. F.value form.now j ≡ Some out)) }
    ensures keeps { IfOk result (λ out. F.keeps form.now out) }
{
    match read_json_first(alloc, input, scratch, form, usize::MAX, h) {
        Ok(out) => Ok(out),
        Err(error) => Err(error.into_whole()),
    }
}

/// Reads bytes as one JSON text, as `read_json` does, and reports at most so many faults, as
/// `read_first` does. This is the call for a body that may hold any number of faults.
pub fn read_json_first<'a, F: Form<'a>, H: I18n + FormI18n>(
    alloc: Global,
    input: &'a [u8],
    scratch: &'a mut Scratch,
    form: &F,
    most: usize,
    h: &H,
) -> Result<F::Out, FirstReadError>
    ensures answer { AnswersFirstBytes (λ j. F.visits form.now (H.form_text h.now) j) (H.text h.now)
        most (without_mark input.now) (forget result) }
    ensures value { IfOk result (λ out. OfDocument (without_mark input.now) (λ j. F.value form.now j ≡ Some out)) }
    ensures keeps { IfOk result (λ out. F.keeps form.now out) }
    ensures whole { IsFirstRead (forget result) → most < 2 ^ 64 - 1 }
{
    let tape = parse_bytes(alloc, input, scratch)?;
    match read_first(alloc, form, &Tree::root(&tape), most, h) {
        Ok(out) => Ok(out),
        Err(error) => Err(FirstReadError::from(error)),
    }
}
