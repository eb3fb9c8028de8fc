//! The cells of a row under the names of its columns.
ghost use Rattle.std.specs.Prelude.{◌≡◌, ◌≤◌, IfOk, IsOk, length, take};
ghost use Rattle.csv.specs.Records.{fields_of};
ghost use Rattle.json.specs.Json.{object};
ghost use Rattle.garde_tape.specs.Texts.{field_members};
ghost use Rattle.garde_rows.specs.Rows.{row_json};
ghost use Rattle.garde_rows.specs.Filled.{IsWithin, held};

use csv::StringRecord;
use garde_tape::FieldValue;
use std::alloc::{AllocError, Global};

// The name of a column and its cell.
pub(crate) type Field<'a> = (&'a str, FieldValue<'a, 'a>);

// A field for each column and its cell, in the order of the columns. The texts stay where they lie.
fn row_fields<'a>(
    alloc: Global,
    columns: &'a StringRecord,
    cells: &'a StringRecord,
) -> Result<Vec<Field<'a>>, AllocError>
    ensures { IfOk result (λ fields. object (field_members fields.items)
        ≡ row_json (fields_of columns.now) (fields_of cells.now)) }
{
    let mut fields = Vec::with_capacity(alloc, columns.len())?;
    for (name, cell) in columns.iter().zip(cells.iter()) {
        fields.push((name, FieldValue::Text(cell)))?;
    }
    Ok(fields)
}

// The same of eight columns at most, at the beginning of this room. The answer is how many fields
// there are.
fn near_fields<'a>(
    columns: &'a StringRecord,
    cells: &'a StringRecord,
    near: &mut [Field<'a>; 8],
) -> usize
    requires { length (fields_of columns.now) ≤ 8 }
    ensures count { result ≤ 8 }
    ensures fields { object (field_members (take result near.new))
        ≡ row_json (fields_of columns.now) (fields_of cells.now) }
{
    let mut count = 0;
    for (name, cell) in columns.iter().zip(cells.iter()) {
        near[count] = (name, FieldValue::Text(cell));
        count += 1;
    }
    count
}

/// Where the fields of a row lie.
#[derive(Drop)]
pub(crate) enum Filled<'a> {
    /// So many at the beginning of the room of a caller.
    Near(usize),
    /// In a list.
    Far(Vec<Field<'a>>),
}

/// Room for the fields of a row of eight columns.
pub(crate) const ROOM: [Field<'static>; 8] = [("", FieldValue::Text("")); 8];

/// A field for each column and its cell, in the order of the columns: in this room, where there are
/// eight at most, and nothing is allocated. The texts stay where they lie.
pub(crate) fn fill<'a>(
    alloc: Global,
    columns: &'a StringRecord,
    cells: &'a StringRecord,
    near: &mut [Field<'a>; 8],
) -> Result<Filled<'a>, AllocError>
    ensures within { IfOk result IsWithin }
    ensures near { length (fields_of columns.now) ≤ 8 → IsOk result }
    ensures fields { IfOk result (λ filled. object (field_members (held filled near.new))
        ≡ row_json (fields_of columns.now) (fields_of cells.now)) }
{
    if columns.len() <= 8 {
        return Ok(Filled::Near(near_fields(columns, cells, near)));
    }
    Ok(Filled::Far(row_fields(alloc, columns, cells)?))
}

impl<'a> Filled<'a> {
    /// The fields.
    pub(crate) fn held_in<'f>(&'f self, near: &'f [Field<'a>; 8]) -> &'f [Field<'a>]
        requires { IsWithin self.now }
        ensures { result.now ≡ held self.now near.now }
    {
        match self {
            Filled::Near(count) => &near[..*count],
            Filled::Far(fields) => fields.as_slice(),
        }
    }
}
