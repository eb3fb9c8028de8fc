//! A table in memory.
ghost use Rattle.std.specs.Prelude.{◌≡◌, ◌≤◌, false, [], map, take, length, IfOk};
ghost use Rattle.std.specs.List.{list_any};
ghost use Rattle.std.specs.Str.{bytes_eq};
ghost use Rattle.std.specs.String.{string_bytes};
ghost use Rattle.example_import.specs.Line.{line_of, page_bytes};
ghost use Rattle.example_import.specs.Memory.{first_lines};
ghost use Rattle.example_import.specs.Import.{Tells};

use crate::row::Row;
use crate::store::Store;
use garde::Valid;
use std::alloc::{AllocError, Global};

/// A table in memory. What is kept are its first rows.
#[derive(Drop)]
pub struct MemoryTable {
    pub rows: Vec<Row>,
    pub kept: usize,
    pub has_begun: bool,
    pub alloc: Global,
    ghost within: { kept ≤ length rows.items },
}

impl MemoryTable {
    /// The table with no row.
    pub fn new(alloc: Global) -> MemoryTable
        ensures empty { result.rows.items ≡ [] }
        ensures settled { first_lines result.kept result.rows.items ≡ map line_of result.rows.items }
        ensures begun { result.has_begun ≡ false }
    {
        MemoryTable {
            rows: Vec::new(alloc),
            kept: 0,
            has_begun: false,
            alloc,
        }
    }

    /// The rows that are kept.
    pub fn kept_rows(&self) -> &[Row]
        ensures { result.now ≡ take self.now.kept self.now.rows.items }
    {
        &self.rows.as_slice()[..self.kept]
    }
}

/// Whether a row has this code.
fn has_code(rows: &[Row], code: &str) -> bool
    ensures { Tells code.now (map line_of rows.now) result }
{
    any_code(rows, code)
}

fn any_code(rows: &[Row], code: &str) -> bool
    ensures { result ≡ list_any (λ row. bytes_eq (string_bytes row.code) code.now) rows.now }
{
    rows.iter().any(|row| row.code.as_str() == code)
}

fn copy_page(alloc: Global, page: &Option<String>) -> Result<Option<String>, AllocError>
    ensures { IfOk result (λ copy. page_bytes copy ≡ page_bytes page.now) }
{
    match page {
        Some(page) => Ok(Some(String::from_str(alloc, page.as_str())?)),
        None => Ok(None),
    }
}

/// A copy of a row.
fn copy(alloc: Global, row: &Row) -> Result<Row, AllocError>
    ensures { IfOk result (λ copy. line_of copy ≡ line_of row.now) }
{
    Ok(Row {
        code: String::from_str(alloc, row.code.as_str())?,
        name: String::from_str(alloc, row.name.as_str())?,
        quantity: row.quantity,
        price: row.price,
        page: copy_page(alloc, &row.page)?,
    })
}

impl Store for MemoryTable {
    ghost use Rattle.std.specs.Prelude.{map, ⊤};
    ghost use Rattle.example_import.specs.Line.{line_of};
    ghost use Rattle.example_import.specs.Memory.{first_lines};

    type Error = AllocError;

    ghost lines = { λ m. map line_of m.rows.items };

    ghost kept = { λ m. first_lines m.kept m.rows.items };

    ghost has_begun = { λ m. m.has_begun };

    ghost is_sound = { λ _. ⊤ };

    fn has_code(&mut self, code: &str) -> Result<bool, AllocError> {
        Ok(has_code(self.rows.as_slice(), code))
    }

    fn insert(&mut self, row: &Valid<Row>) -> Result<(), AllocError> {
        let row = copy(self.alloc, row)?;
        self.rows.push(row)?;
        Ok(())
    }

    fn begin(&mut self) -> Result<(), AllocError> {
        self.has_begun = true;
        Ok(())
    }

    fn commit(&mut self) -> Result<(), AllocError> {
        self.kept = self.rows.len();
        Ok(())
    }

    fn rollback(&mut self) -> Result<(), AllocError> {
        self.rows.truncate(self.kept);
        Ok(())
    }
}
