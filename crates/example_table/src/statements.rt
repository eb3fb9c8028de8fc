//! The statements on the table.
ghost use Rattle.std.specs.Prelude.{◌≡◌, false, [], ◌∷◌, IfErr, IfOk, IfSome, OnOk, OnErr, IsTrue, ◌≤◌};
ghost use Rattle.sqlite.specs.Held.{state};
ghost use Rattle.sqlite.specs.Values.{bound};
ghost use Rattle.sqlite.specs.Tree.{put_row};
ghost use Rattle.example_import.specs.Line.{line_of, number_cell, text_cell, page_bytes};
ghost use Rattle.example_import.specs.Import.{Tells};
ghost use Rattle.example_table.specs.Stock.{no_schema, stock_schema, value, lines_in, params_of, stored, IsUp, HasTable, Ordered, Stays, Fails, FailsToCreate, page_behind};

use example_import::row::Row;
use garde::Valid;
use sqlite::types::{ToSql, ValueRef};
use sqlite::{Alter, Connection, Error};

/// What is put for a number that may be missing.
fn number<'a>(number: Option<u64>) -> ValueRef<'a>
    requires { IfSome number (λ n. n ≤ 50000) }
    ensures { bound (result ∷ []) ≡ value (number_cell number) ∷ [] }
{
    match number {
        Some(number) => ValueRef::Int(number as i64),
        None => ValueRef::Null,
    }
}

/// What is put for a text that may be missing.
fn text<'a>(text: &'a Option<String>) -> ValueRef<'a>
    ensures { bound (result ∷ []) ≡ value (text_cell (page_bytes text.now)) ∷ [] }
{
    match text {
        Some(text) => text.as_str().to_sql(),
        None => ValueRef::Null,
    }
}

/// What is put into the columns.
#[tactic(auto, unfolding(garde::specs::Fields::Known))]
fn values<'a>(row: &'a Valid<Row>) -> [ValueRef<'a>; 5]
    ensures { bound result ≡ params_of (line_of row.now) }
{
    let row = &**row;
    [
        row.code.as_str().to_sql(),
        row.name.as_str().to_sql(),
        number(row.quantity),
        number(row.price),
        text(&row.page),
    ]
}

/// Whether a row of the table has this code.
pub(crate) fn find<S: Alter>(conn: &mut Connection<S>, code: &str) -> Result<bool, Error>
    ensures up { IsUp (state S.Store conn.new) → IsUp (state S.Store conn.old) }
    ensures found { IsUp (state S.Store conn.new) → HasTable (state S.Store conn.old)
        → IfOk result (Tells code.now (lines_in ((state S.Store conn.old).now.trees 0))) }
    ensures ok { IsUp (state S.Store conn.new) → HasTable (state S.Store conn.old)
        → OnOk result (Stays (state S.Store conn.old) (state S.Store conn.new)) }
    ensures err { IsUp (state S.Store conn.new) → OnErr result (Fails (state S.Store conn.old) (state S.Store conn.new)) }
{
    match conn.query_all("SELECT id FROM stock WHERE code = ?1", &[code.to_sql()]) {
        Ok(found) => Ok(!found.is_empty()),
        Err(error) => Err(error),
    }
}

/// Puts a row behind the others, inside a transaction.
pub(crate) fn put<S: Alter>(conn: &mut Connection<S>, row: &Valid<Row>) -> Result<usize, Error>
    ensures up { IsUp (state S.Store conn.new) → IsUp (state S.Store conn.old) }
    ensures schema { IsUp (state S.Store conn.new) → HasTable (state S.Store conn.old)
        → OnOk result ((state S.Store conn.new).now.schema ≡ stock_schema) }
    ensures rows { IsUp (state S.Store conn.new) → HasTable (state S.Store conn.old)
        → OnOk result ((state S.Store conn.new).now.trees 0
        ≡ put_row (stored ((state S.Store conn.old).now.trees 0) (line_of row.now)) ((state S.Store conn.old).now.trees 0)) }
    ensures kept { IsUp (state S.Store conn.new) → HasTable (state S.Store conn.old) → IsTrue (state S.Store conn.old).in_transaction
        → OnOk result (((state S.Store conn.new).committed ≡ (state S.Store conn.old).committed) × IsTrue (state S.Store conn.new).in_transaction) }
    ensures err { IsUp (state S.Store conn.new) → OnErr result (Fails (state S.Store conn.old) (state S.Store conn.new)) }
{
    conn.execute(
        "INSERT INTO stock (code, name, quantity, price, page) VALUES (?1, ?2, ?3, ?4, ?5)",
        &values(row),
    )
}

/// The rows behind the one with this rowid, a thousand at most.
pub(crate) fn page<S: Alter>(conn: &mut Connection<S>, last: i64) -> Result<Vec<sqlite::Row>, Error>
    ensures up { IsUp (state S.Store conn.new) → IsUp (state S.Store conn.old) }
    ensures ok { IsUp (state S.Store conn.new) → HasTable (state S.Store conn.old)
        → OnOk result (Stays (state S.Store conn.old) (state S.Store conn.new)) }
    ensures rows { IsUp (state S.Store conn.new) → HasTable (state S.Store conn.old) → Ordered ((state S.Store conn.old).now.trees 0)
        → IfOk result (λ rows. rows.items ≡ page_behind last ((state S.Store conn.old).now.trees 0)) }
    ensures err { IsUp (state S.Store conn.new) → OnErr result (Fails (state S.Store conn.old) (state S.Store conn.new)) }
{
    match conn.query_all(
        "SELECT id, code, name, quantity, price, page FROM stock WHERE id > ?1 ORDER BY id LIMIT 1000",
        &[ValueRef::Int(last)],
    ) {
        Ok(rows) => Ok(rows),
        Err(error) => Err(error),
    }
}

/// Begins a transaction.
pub(crate) fn begin<S: Alter>(conn: &mut Connection<S>) -> Result<usize, Error>
    ensures up { IsUp (state S.Store conn.new) → IsUp (state S.Store conn.old) }
    ensures ok { IsUp (state S.Store conn.new) → HasTable (state S.Store conn.old)
        → OnOk result (((state S.Store conn.new).now ≡ (state S.Store conn.old).now)
        × ((state S.Store conn.new).committed ≡ (state S.Store conn.old).committed) × IsTrue (state S.Store conn.new).in_transaction) }
    ensures err { IsUp (state S.Store conn.new) → OnErr result (Fails (state S.Store conn.old) (state S.Store conn.new)) }
{
    conn.execute("BEGIN", &[])
}

/// Keeps what the transaction wrote.
pub(crate) fn commit<S: Alter>(conn: &mut Connection<S>) -> Result<usize, Error>
    ensures up { IsUp (state S.Store conn.new) → IsUp (state S.Store conn.old) }
    ensures ok { IsUp (state S.Store conn.new) → HasTable (state S.Store conn.old)
        → OnOk result (((state S.Store conn.new).now ≡ (state S.Store conn.old).now)
        × ((state S.Store conn.new).committed ≡ (state S.Store conn.old).now)) }
    ensures err { IsUp (state S.Store conn.new) → OnErr result (Fails (state S.Store conn.old) (state S.Store conn.new)) }
{
    conn.execute("COMMIT", &[])
}

/// Undoes what the transaction wrote.
pub(crate) fn rollback<S: Alter>(conn: &mut Connection<S>) -> Result<usize, Error>
    ensures up { IsUp (state S.Store conn.new) → IsUp (state S.Store conn.old) }
    ensures ok { IsUp (state S.Store conn.new) → HasTable (state S.Store conn.old)
        → OnOk result (((state S.Store conn.new).now ≡ (state S.Store conn.old).committed)
        × ((state S.Store conn.new).committed ≡ (state S.Store conn.old).committed)) }
    ensures err { IsUp (state S.Store conn.new) → OnErr result (Fails (state S.Store conn.old) (state S.Store conn.new)) }
{
    conn.execute("ROLLBACK", &[])
}

/// Makes the table, in a database with no schema.
pub(crate) fn create<S: Alter>(conn: &mut Connection<S>) -> Result<usize, Error>
    requires empty { (state S.Store conn.old).now.schema ≡ no_schema }
    requires outside { conn.old.in_transaction ≡ false }
    ensures made { IsUp (state S.Store conn.new) → OnOk result (HasTable (state S.Store conn.new)
        × ((state S.Store conn.new).now.trees 0 ≡ []) × ((state S.Store conn.new).committed.trees 0 ≡ [])) }
    ensures err { IfErr result (FailsToCreate (state S.Store conn.old) (state S.Store conn.new)) }
{
    conn.execute(
        "CREATE TABLE stock (id INTEGER PRIMARY KEY, code TEXT NOT NULL UNIQUE, name TEXT NOT NULL, quantity INTEGER NOT NULL, price INTEGER NOT NULL, page TEXT) STRICT",
        &[],
    )
}
