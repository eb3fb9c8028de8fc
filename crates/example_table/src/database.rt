//! The table as one that takes valid rows alone.
ghost use Rattle.std.specs.Prelude.{◌≡◌, ◌↔◌, false, [], IfErr, IfOk, OnOk, IsTrue};
ghost use Rattle.sqlite.specs.Held.{state};
ghost use mathlib.Core.HLevel.{Π_prop};
ghost use Rattle.example_table.specs.Props.{Holds-prop};
ghost use Rattle.example_table.specs.Stock.{Holds, IsFree, IsNotMade, IsUp, page_behind};

use crate::opening::OpenError;
use crate::statements;
use example_import::row::Row;
use example_import::store::Store;
use garde::Valid;
use sqlite::{Alter, Connection, Error};

/// The table `stock` of a database.
#[derive(Drop)]
pub struct Stock<S: Alter> {
    pub conn: Connection<S>,
    /// It was made here, and not found.
    pub is_made: bool,
    ghost holds: { IsTrue is_made → Holds (state S.Store conn) } by { Π_prop (λ _. Holds-prop (state S.Store conn)) },
}

/// Whether a database has no table, and no transaction has begun.
fn is_empty<S: Alter>(conn: &Connection<S>) -> bool
    ensures { IsTrue result ↔ IsFree (state S.Store conn.now) }
{
    let schema = conn.schema();
    conn.is_autocommit()
        && schema.tables.is_empty()
        && schema.indexes.is_empty()
        && schema.views.is_empty()
}

impl<S: Alter + Drop> Stock<S> {
    /// The table, made in a database that has none. Where a database has one, or a transaction has
    /// begun, the error is `OtherTable`, and nothing is made.
    pub fn make(mut conn: Connection<S>) -> Result<Stock<S>, OpenError>
        ensures made { IfOk result (λ stock. IsTrue stock.is_made) }
        ensures free { OnOk result (IsFree (state S.Store conn)) }
        ensures refused { IfErr result (λ error. IsNotMade S.Store error conn) }
        ensures empty { IfOk result (λ stock. IsUp (state S.Store stock.conn)
            → ((state S.Store stock.conn).now.trees 0 ≡ []) × ((state S.Store stock.conn).committed.trees 0 ≡ [])) }
    {
        if !is_empty(&conn) {
            return Err(OpenError::OtherTable);
        }
        match statements::create(&mut conn) {
            Ok(_) => Ok(Stock {
                conn,
                is_made: true,
            }),
            Err(error) => Err(OpenError::Sqlite(error)),
        }
    }

    /// The table that stands in a database. No clause says what it has.
    pub fn found(conn: Connection<S>) -> Stock<S>
        ensures { (result.is_made ≡ false) × (result.conn ≡ conn) }
    {
        Stock {
            conn,
            is_made: false,
        }
    }

    /// The rows behind the one with this rowid, a thousand at most, in their order.
    pub(crate) fn page(&mut self, last: i64) -> Result<Vec<sqlite::Row>, Error>
        ensures rows { IsTrue self.new.is_made → IsUp (state S.Store self.new.conn)
            → IfOk result (λ rows. rows.items ≡ page_behind last ((state S.Store self.old.conn).now.trees 0)) }
        ensures kept { IsTrue self.new.is_made → IsUp (state S.Store self.new.conn)
            → OnOk result ((state S.Store self.new.conn).now.trees 0 ≡ (state S.Store self.old.conn).now.trees 0) }
        ensures made { self.new.is_made ≡ self.old.is_made }
    {
        match statements::page(&mut self.conn, last) {
            Ok(rows) => Ok(rows),
            Err(error) => Err(error),
        }
    }
}

impl<S: Alter + Drop> Store for Stock<S> {
    ghost use Rattle.sqlite.specs.Held.{state};
    ghost use Rattle.std.specs.Prelude.{IsTrue};
    ghost use Rattle.example_table.specs.Stock.{IsUp, lines_in};

    type Error = Error;

    ghost lines = { λ t. lines_in ((state S.Store t.conn).now.trees 0) };

    ghost kept = { λ t. lines_in ((state S.Store t.conn).committed.trees 0) };

    ghost has_begun = { λ t. (state S.Store t.conn).in_transaction };

    ghost is_sound = { λ t. IsTrue t.is_made × IsUp (state S.Store t.conn) };

    fn has_code(&mut self, code: &str) -> Result<bool, Error> {
        match statements::find(&mut self.conn, code) {
            Ok(found) => Ok(found),
            Err(error) => Err(error),
        }
    }

    fn insert(&mut self, row: &Valid<Row>) -> Result<(), Error> {
        match statements::put(&mut self.conn, row) {
            Ok(_) => Ok(()),
            Err(error) => Err(error),
        }
    }

    fn begin(&mut self) -> Result<(), Error> {
        match statements::begin(&mut self.conn) {
            Ok(_) => Ok(()),
            Err(error) => Err(error),
        }
    }

    fn commit(&mut self) -> Result<(), Error> {
        match statements::commit(&mut self.conn) {
            Ok(_) => Ok(()),
            Err(error) => Err(error),
        }
    }

    fn rollback(&mut self) -> Result<(), Error> {
        // A statement that failed may have ended the transaction.
        if self.conn.is_autocommit() {
            return Ok(());
        }
        match statements::rollback(&mut self.conn) {
            Ok(_) => Ok(()),
            Err(error) => Err(error),
        }
    }
}
