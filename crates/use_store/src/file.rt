//! The table of a file.
ghost use Rattle.std.specs.Prelude.{◌≡◌, [], IfOk, IsTrue};
ghost use Rattle.sqlite.specs.Held.{state};
ghost use Rattle.example_table.specs.Stock.{IsUp};

use crate::kind::unread_kind;
use anyhow::{Result, bail};
use example_table::database::Stock;
use example_table::opening::OpenError;
use sqlite::{Alter, Connection, Error, ErrorCode, File, FileStore};
use std::rt::HostRuntime;
use std::thread;
use std::time::Duration;

/// How often a file is tried that another process has open, and the milliseconds in between.
const TRIES: usize = 20;

const PAUSE: u64 = 50;

/// What is done with the table of a file. It is written over any store of a database, since a proof over
/// `FileStore<File>` is dear: `with` alone has one.
pub trait Work {
    /// What comes of it.
    type Done;

    /// Opens the table of a database by `open`, and does it. The answer is the table, which is still
    /// open, and what came of it.
    fn run<S: Alter + Drop>(
        &mut self,
        rt: &HostRuntime,
        database: Result<Connection<S>, Error>,
    ) -> Result<(Stock<S>, Self::Done)>;
}

/// The database of a file, which is made if it is not there. A file that another process has open is
/// waited for, a second at most.
fn connect(rt: &HostRuntime, path: &str) -> Result<Connection<FileStore<File>>, Error> {
    for _ in 1..TRIES {
        match Connection::open(rt, path) {
            Err(Error::SqliteFailure(ErrorCode::DatabaseBusy)) => thread::sleep(
                rt,
                Duration::from_millis(PAUSE),
            ),
            opened => return opened,
        }
    }
    Connection::open(rt, path)
}

/// The table of the database of a file, which is made where the file was not there or holds no table. A
/// file with another table is rejected, and so is one that is no database.
pub fn open<S: Alter + Drop>(database: Result<Connection<S>, Error>) -> Result<Stock<S>, OpenError>
    ensures empty { IfOk result (λ stock. IsTrue stock.is_made → IsUp (state S.Store stock.conn)
        → ((state S.Store stock.conn).now.trees 0 ≡ []) × ((state S.Store stock.conn).committed.trees 0 ≡ [])) }
{
    Stock::over(database?)
}

/// Does work with the table of a file, which is made if it is not there. A file that another process
/// has open is waited for, a second at most. A sound one of a kind that is not read is rejected by its
/// kind. The answer is the table, which is still open, and what came of the work.
pub fn with<W: Work>(
    rt: &HostRuntime,
    path: &str,
    work: &mut W,
) -> Result<(Stock<FileStore<File>>, W::Done)> {
    let database = connect(rt, path);
    if let Err(error) = &database
        && let Some(kind) = unread_kind(rt, path, *error)
    {
        bail!("{path:?}: a SQLite file with {kind} is not supported");
    }
    work.run(rt, database)
}

/// Whether a file was not opened since the disk is full, or failed.
pub fn is_full(error: &OpenError) -> bool {
    matches!(
        error,
        OpenError::Sqlite(Error::SqliteFailure(ErrorCode::DiskFull | ErrorCode::SystemIoFailure))
    )
}

/// Closes the file, which holds all kept rows then. What was not kept is gone.
pub fn close(stock: Stock<FileStore<File>>) -> Result<(), Error> {
    stock.conn.close()
}
