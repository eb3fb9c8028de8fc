//! The columns of a table.
ghost use Rattle.std.specs.Prelude.{◌≡◌, IfOk};
ghost use Rattle.csv.specs.Records.{fields_of};
ghost use Rattle.garde_schema.specs.Forms.{forget};
ghost use Rattle.garde_rows.specs.Rows.{AnswersRow, header_visits};

use crate::fields::{ROOM, fill};
use csv::StringRecord;
use garde::{I18n, ValidateError};
use garde_schema::{Closed, FormI18n, Members, Object, Tree, read};
use std::alloc::Global;
use std::marker::Model;

/// The columns of a table, in the order of its header. A contract sees their names.
#[derive(Debug, Drop)]
pub struct Columns<'a> {
    pub(crate) header: &'a StringRecord,
}

impl<'a> Model for Columns<'a> {
    ghost use Rattle.std.specs.Prelude.{ℕ, List};
    ghost use Rattle.csv.specs.Records.{fields_of};

    ghost Value = { List (List ℕ) };

    ghost view = { λ columns. fields_of columns.header.now };
}

/// Reads the header of a table by what is asked of its columns: of `Names` that each stands there
/// once. They may stand in any order, and no other column may.
///
/// A column that is missing or repeated is a fault under its name. Each column that is not known is
/// one behind those, in the order of the header. The columns borrow from the header.
pub fn read_columns<'a, M: Members<'a> + Drop, H: I18n + FormI18n>(
    alloc: Global,
    header: &'a StringRecord,
    known: M,
    h: &H,
) -> Result<Columns<'a>, ValidateError>
    ensures answer { AnswersRow (fields_of header.now)
        (header_visits (λ j. M.visits known (H.form_text h.now) j) (λ name. M.names known name)
        (H.form_text h.now) (fields_of header.now))
        (H.text h.now) (forget result) }
    ensures columns { IfOk result (λ columns. columns ≡ fields_of header.now) }
{
    let mut room = ROOM;
    let Ok(filled) = fill(alloc, header, header, &mut room) else {
        return Err(ValidateError::Memory);
    };
    let form = Object(Closed(known));
    match read(alloc, &form, &Tree::fields(filled.held_in(&room)), h) {
        Ok(_) => Ok(Columns { header }),
        Err(error) => Err(error),
    }
}
