//! The table of a database that is there.
ghost use Rattle.std.specs.Prelude.{◌≡◌, [], false, IfErr, IfOk, IsTrue};
ghost use Rattle.sqlite.specs.Held.{state};
ghost use Rattle.example_table.specs.Stock.{IsFree, IsReady, IsRejected, IsUp};

use crate::database::Stock;
use crate::schema::{is_bound, is_ready};
use sqlite::{Alter, Connection, Error};
use std::fmt;

/// Why a database has no table that rows can be put into.
#[derive(Clone, Copy, Debug)]
pub enum OpenError {
    /// The database has another table, or this one with other columns or under other rules.
    OtherTable,
    /// The table has a trigger, or an index that is unique, or that has a condition or an expression.
    Bound,
    /// A statement failed.
    Sqlite(Error),
}

impl fmt::Display for OpenError {
    fn fmt<W: fmt::Write>(&self, f: &mut fmt::Formatter<W>) -> fmt::Result {
        match self {
            OpenError::OtherTable => f.write_str("the database has another table"),
            OpenError::Bound => f.write_str(
                "the table has a trigger, or an index that is unique or has a condition or an expression",
            ),
            OpenError::Sqlite(error) => write!(f, "{error}"),
        }
    }
}

impl std::error::Error for OpenError {}

impl From<Error> for OpenError {
    fn from(error: Error) -> OpenError {
        OpenError::Sqlite(error)
    }
}

impl<S: Alter + Drop> Stock<S> {
    /// The table of a database: the one that it has, with its rows as they are, or where it has none, one
    /// that is made and has no row. Indexes of the table are kept up to date.
    ///
    /// # Errors
    ///
    /// The database has another table, something binds its table, or the statement that makes one failed.
    pub fn over(conn: Connection<S>) -> Result<Stock<S>, OpenError>
        ensures found { IfOk result (λ stock. stock.is_made ≡ false
            → (stock.conn ≡ conn) × IsReady (state S.Store conn).now.schema) }
        ensures made { IfOk result (λ stock. IsTrue stock.is_made → IsFree (state S.Store conn)) }
        ensures empty { IfOk result (λ stock. IsTrue stock.is_made → IsUp (state S.Store stock.conn)
            → ((state S.Store stock.conn).now.trees 0 ≡ []) × ((state S.Store stock.conn).committed.trees 0 ≡ [])) }
        ensures rejected { IfErr result (λ error. IsRejected S.Store error conn) }
    {
        let schema = conn.schema();
        if is_ready(schema) {
            Ok(Stock::found(conn))
        } else if is_bound(schema) {
            Err(OpenError::Bound)
        } else {
            Stock::make(conn)
        }
    }
}
