//! Reading a row by a form.
ghost use Rattle.std.specs.Prelude.{◌≡◌, true, Some, IfOk};
ghost use Rattle.csv.specs.Records.{fields_of};
ghost use Rattle.garde_schema.specs.Forms.{forget};
ghost use Rattle.garde_rows.specs.Rows.{AnswersRow, is_whole, row_json, row_visits};

use crate::columns::Columns;
use crate::fields::{ROOM, fill};
use crate::row_form::RowForm;
use csv::StringRecord;
use garde::{I18n, ValidateError};
use garde_schema::{Form, FormI18n, Tree, read};
use std::alloc::Global;

// Whether there is a cell for each column, and no more.
fn is_whole(columns: &Columns<'_>, cells: &StringRecord) -> bool
    ensures { result ≡ is_whole columns.now (fields_of cells.now) }
{
    cells.len() == columns.header.len()
}

/// Reads a row of a table by a form: the value that its cells spell, or a report of every fault of
/// form and of the rules, under the index of the row.
///
/// The form sees an object with a member for each column, in the order of the header, whose value is
/// the text of the cell. A row with more or fewer cells than there are columns is one fault, and the
/// form is not asked. The value borrows from the cells and from the header.
///
/// A row of at most eight columns is read with no allocation but those of its faults and of its rules.
pub fn read_row<'a, 'c: 'a, F: Form<'a>, H: I18n + FormI18n>(
    alloc: Global,
    index: usize,
    columns: &Columns<'c>,
    cells: &'a StringRecord,
    form: &F,
    h: &H,
) -> Result<F::Out, ValidateError>
    ensures answer { AnswersRow columns.now
        (row_visits index (H.form_text h.now) (λ j. F.visits form.now (H.form_text h.now) j) columns.now (fields_of cells.now))
        (H.text h.now) (forget result) }
    ensures whole { IfOk result (λ out. is_whole columns.now (fields_of cells.now) ≡ true) }
    ensures value { IfOk result (λ out. F.value form.now (row_json columns.now (fields_of cells.now)) ≡ Some out) }
    ensures keeps { IfOk result (λ out. F.keeps form.now out) }
{
    let mut room = ROOM;
    let Ok(filled) = fill(alloc, columns.header, cells, &mut room) else {
        return Err(ValidateError::Memory);
    };
    let is_whole = is_whole(columns, cells);
    let row = RowForm {
        index,
        is_whole,
        form,
    };
    read(alloc, &row, &Tree::fields(filled.held_in(&room)), h)
}
