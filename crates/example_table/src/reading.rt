//! The rows of the table, read back.
ghost use Rattle.std.specs.Prelude.{◌≡◌, ◌-◌, ◌^◌, negsuc, [], ◌∷◌, IfOk, IfSome, IsTrue, OnErr, OnOk};
ghost use Rattle.sqlite.specs.Held.{state};
ghost use Rattle.sqlite.specs.Order.{column};
ghost use Rattle.garde.specs.Words.{index_part};
ghost use Rattle.example_table.specs.Props.{IsFront-prop};
ghost use Rattle.example_table.specs.Reading.{IsStored, IsStoredAs, Reads, Spells, line_shown, unsigned};
ghost use Rattle.example_table.specs.Stock.{IsFront, IsUp, behind, cell};

use crate::database::Stock;
use example_import::row::Row;
use garde::{Component, DefaultI18n, Report, Trail, Valid, Validate, ValidateError};
use sqlite::{Alter, Error, ErrorCode};
use std::alloc::{AllocError, Global};
use std::collections::VecDeque;

/// A row of the table. What the rules ask is known of a valid one.
#[derive(Drop)]
pub enum Stored {
    Valid(Valid<Row>),
    /// Every fault of a row that is not valid, under its index in the table. No call of this crate
    /// puts such a row there.
    Faulty(Report),
}

/// The rows of a table that were not read yet.
#[derive(Drop)]
pub struct Rows<'a, S: Alter> {
    stock: &'a mut Stock<S>,
    /// The first of the rows behind `last`.
    page: VecDeque<sqlite::Row>,
    /// The rowid of the row that was read last.
    last: i64,
    /// How many rows were read.
    pub index: usize,
    alloc: Global,
    ghost is_front: { IsTrue stock.now.is_made → IsUp (state S.Store stock.now.conn) → IsFront page.items last ((state S.Store stock.now.conn).now.trees 0) } by { IsFront-prop (IsTrue stock.now.is_made) (state S.Store stock.now.conn) page.items last },
}

/// The number in a column, if it has no sign.
fn number(row: &sqlite::Row, at: usize) -> Result<Option<u64>, Error>
    ensures { IfOk result (λ number. number ≡ unsigned (cell (column row.now at))) }
{
    let number: i64 = row.get(at)?;
    Ok(u64::try_from(number).ok())
}

/// The row of an article, which a row of the table spells.
fn row_of(row: &sqlite::Row) -> Result<Row, Error>
    ensures { IfOk result (Spells (line_shown row.now)) }
{
    Ok(Row {
        code: row.get(1)?,
        name: row.get(2)?,
        quantity: number(row, 3)?,
        price: number(row, 4)?,
        page: row.get(5)?,
    })
}

/// The trail to the row with this index.
fn trail_to<'a>(alloc: Global, index: usize) -> Result<Trail<'a>, AllocError>
    ensures { IfOk result (λ trail. trail.components ≡ index_part index ∷ []) }
{
    let mut trail = Trail::new(alloc);
    trail.push(Component::index(index))?;
    Ok(trail)
}

/// A row with this index, validated.
fn validated(alloc: Global, index: usize, row: Row) -> Result<Stored, Error>
    ensures { IfOk result (IsStoredAs index row) }
{
    let mut trail = trail_to(alloc, index)?;
    match row.validate_on(&(), &mut trail, &DefaultI18n) {
        Ok(()) => {}
        Err(ValidateError::Report(report)) => return Ok(Stored::Faulty(report)),
        Err(ValidateError::Memory) => return Err(Error::SqliteFailure(ErrorCode::OutOfMemory)),
    }
    drop(trail);
    Ok(Stored::Valid(Valid::known(row, &())))
}

impl<S: Alter + Drop> Stock<S> {
    /// The rows of the table, from the first on.
    pub fn rows<'a>(&'a mut self, alloc: Global) -> Rows<'a, S>
        ensures index { result.index ≡ 0 }
        ensures last { result.last ≡ negsuc (2 ^ 63 - 1) }
    {
        Rows {
            stock: self,
            page: VecDeque::new(alloc),
            last: i64::MIN,
            index: 0,
            alloc,
        }
    }
}

impl<'a, S: Alter + Drop> Rows<'a, S> {
    /// Reads the next page, where no row of the last one is left.
    fn fill(&mut self) -> Result<(), Error>
        ensures same { (self.new.last ≡ self.old.last) × (self.new.index ≡ self.old.index) }
        ensures made { self.new.stock.now.is_made ≡ self.old.stock.now.is_made }
        ensures kept { IsTrue self.new.stock.now.is_made → IsUp (state S.Store self.new.stock.now.conn)
            → OnOk result ((state S.Store self.new.stock.now.conn).now.trees 0 ≡ (state S.Store self.old.stock.now.conn).now.trees 0) }
        ensures end { IsTrue self.new.stock.now.is_made → IsUp (state S.Store self.new.stock.now.conn)
            → OnOk result (self.new.page.items ≡ [] → behind self.old.last ((state S.Store self.old.stock.now.conn).now.trees 0) ≡ []) }
    {
        if self.page.is_empty() {
            self.page = VecDeque::from(self.stock.page(self.last)?);
        }
        Ok(())
    }

    /// The next row, or `None` behind the last one. Of a table that was made here, it is the first row
    /// whose rowid is greater than that of the row before, and `None` comes only where no row is left.
    /// A call that failed has read no row: the next one goes on behind the same row.
    pub fn next(&mut self) -> Result<Option<Stored>, Error>
        ensures stored { IfOk result (λ next. IfSome next (IsStored self.old.index)) }
        ensures kept { IsTrue self.new.stock.now.is_made → IsUp (state S.Store self.new.stock.now.conn)
            → OnOk result ((state S.Store self.new.stock.now.conn).now.trees 0 ≡ (state S.Store self.old.stock.now.conn).now.trees 0) }
        ensures read { IsTrue self.new.stock.now.is_made → IsUp (state S.Store self.new.stock.now.conn)
            → IfOk result (λ next. Reads ((state S.Store self.old.stock.now.conn).now.trees 0) self.old.last self.old.index next self.new.last) }
        ensures err { OnErr result ((self.new.last ≡ self.old.last) × (self.new.index ≡ self.old.index)) }
    {
        self.fill()?;
        let Some(shown) = self.page.front() else {
            return Ok(None);
        };
        let last = shown.get(0)?;
        let stored = validated(self.alloc, self.index, row_of(shown)?)?;
        self.last = last;
        self.index = self.index.saturating_add(1);
        self.page.pop_front();
        Ok(Some(stored))
    }
}
