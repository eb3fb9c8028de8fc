//! Kinds of SQLite files that `sqlite` does not read. It takes them for damaged.
use sqlite::{Error, ErrorCode};
use std::fs::File;
use std::io::Read;
use std::rt::HostRuntime;

/// The first 16 bytes of each SQLite file, as SQLite documents its file format.
const BEGINNING: &[u8] = b"SQLite format 3\0";

/// The length of that header.
const HEADER: usize = 100;

/// The greatest root page, which is 0 in a file without auto_vacuum.
const GREATEST_ROOT: usize = 52;

/// The last byte of the encoding of texts, which is 2 or 3 for those of UTF-16.
const ENCODING: usize = 59;

/// How the statement of a virtual table begins, as SQLite keeps it.
const VIRTUAL: &[u8] = b"CREATE VIRTUAL TABLE ";

/// The longest page, in bytes.
const PAGE: u64 = 65536;

/// Whether these bytes stand somewhere.
fn stands_in(bytes: &[u8], text: &[u8]) -> bool {
    for start in 0..bytes.len() {
        if bytes[start..].starts_with(text) {
            return true;
        }
    }
    false
}

/// What a file has that is not read, by its first page.
fn kind_of(page: &[u8]) -> Option<&'static str> {
    if page.len() < HEADER || !page.starts_with(BEGINNING) {
        None
    } else if page[GREATEST_ROOT..GREATEST_ROOT + 4] != [0; 4] {
        Some("auto_vacuum")
    } else if page[ENCODING] > 1 {
        Some("texts in UTF-16")
    } else if stands_in(page, VIRTUAL) {
        Some("a virtual table")
    } else {
        None
    }
}

/// The first page of a file, or a part of it.
fn first_page(rt: &HostRuntime, path: &str) -> Option<Vec<u8>> {
    let mut page = Vec::new(rt.alloc());
    let file = File::open(rt, path).ok()?;
    file.take(PAGE).read_to_end(&mut page).ok()?;
    Some(page)
}

/// What a file has that is not read, where it was not opened for this reason.
pub fn unread_kind(rt: &HostRuntime, path: &str, error: Error) -> Option<&'static str> {
    match error {
        Error::SqliteFailure(ErrorCode::DatabaseCorrupt | ErrorCode::NotADatabase) => {
            kind_of(first_page(rt, path)?.as_slice())
        }
        _ => None,
    }
}
