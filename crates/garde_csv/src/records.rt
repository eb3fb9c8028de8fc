//! The records of a list.
ghost use Rattle.std.specs.Prelude.{◌≡◌, ◌++◌, ◌∷◌, [], MatchOption, true, false, Err, IfErr, IfOk, OnErr, OnOk, option_map};
ghost use Rattle.std.specs.Io.KnownBytes.{Keeps};
ghost use Rattle.csv.specs.Reading.{strip_bom};
ghost use Rattle.csv.specs.Machine.{ends_at_end};
ghost use Rattle.csv.specs.Records.{fields_of, partial_of};
ghost use Rattle.csv.specs.declared.parser.State.TheVariants as st;
ghost use Rattle.garde_csv.specs.Places.{state_of};
ghost use Rattle.garde_csv.specs.Quotes.{seen_at_end, seen_of, unbegun};
ghost use Rattle.garde_csv.specs.Lists.{GivesNext, IsAnswer, TakesNext, has_stopped, is_cause, list_state, next_line, rest_of, row_line};

use crate::bytes::Bytes;
use crate::fault::Fault;
use crate::feed::feed;
use crate::list_error::ListError;
use crate::place::Place;
use crate::walk::Walk;
use csv::{ByteRecord, StringRecord};
use std::alloc::Global;
use std::io::Read;
use std::mem;

/// What was read of a list.
#[derive(Clone, Copy, Debug, PartialEq, Eq)]
pub enum Next {
    /// A record, which is text and whose quotes are right.
    Row,
    /// A record that is not.
    Faulty(Fault),
    /// The list has no further record.
    End,
}

// What is known of the record at the end of the list, if there is one.
fn finish(walk: Walk, cell: &Vec<u8>, cells: &mut ByteRecord) -> Result<Option<Walk>, ListError>
    requires { partial_of cells.old ≡ [] }
    ensures ends { IfOk result (λ found. MatchOption found (ends_at_end (state_of walk.place) ≡ false)
        (λ end. (ends_at_end (state_of walk.place) ≡ true) × (seen_of end ≡ seen_at_end (seen_of walk))
        × (fields_of cells.new ≡ fields_of cells.old ++ cell.now.items ∷ []))) }
    ensures why { IfErr result (λ error. is_cause error ≡ true) }
{
    if walk.is_before() {
        return Ok(None);
    }
    cells.push_field(cell.as_slice())?;
    Ok(Some(walk.end()))
}

// What a record is whose cells are these, and gives them where they are text without a fault.
fn finished(walk: Walk, raw: ByteRecord, cells: &mut StringRecord) -> Next
    requires { fields_of cells.old ≡ [] }
    ensures { IsAnswer walk.fault (fields_of raw) (fields_of cells.new) result }
{
    if let Some(fault) = walk.fault {
        return Next::Faulty(fault);
    }
    match StringRecord::from_byte_record(raw) {
        Ok(text) => {
            *cells = text;
            Next::Row
        }
        Err(_) => Next::Faulty(Fault::NotUtf8),
    }
}

/// The records of a list in CSV, one after the other. Cells are parted by commas. A record ends with
/// a line feed, a carriage return, both, or the list. Empty lines are no records, and a byte order
/// mark at the beginning of the list belongs to no cell.
#[derive(Debug, Drop)]
pub struct Records<R> {
    alloc: Global,
    bytes: Bytes<R>,
    place: Place,
    line: u64,
    start: u64,
    cell: Vec<u8>,
    failed: bool,
}

impl<R: Read + Drop> Records<R> {
    /// The records of these bytes. It allocates 8 KiB, and reads three bytes at most. An error is
    /// never `ListError::Stopped`.
    pub fn new(alloc: Global, source: R) -> Result<Records<R>, ListError>
        ensures bytes { IfOk result (λ list. Keeps (option_map strip_bom (R.remaining source)) (rest_of R.remaining list)) }
        ensures state { IfOk result (λ list. list_state list ≡ st.StartRecord) }
        ensures line { IfOk result (λ list. next_line list ≡ 1) }
        ensures goes { IfOk result (λ list. has_stopped list ≡ false) }
        ensures why { IfErr result (λ error. is_cause error ≡ true) }
    {
        let bytes = Bytes::new(alloc, source)?;
        Ok(Records {
            alloc,
            bytes,
            place: Place::RecordStart,
            line: 1,
            start: 1,
            cell: Vec::new(alloc),
            failed: false,
        })
    }

    /// The line of the text in which the record begins that was read last, from 1. Lines end with a
    /// line feed.
    pub fn line(&self) -> u64
        ensures { result ≡ row_line self.now }
    {
        self.start
    }

    // Reads the cells of the next record, and tells what is known of it, if there is one.
    fn take(&mut self, cells: &mut ByteRecord) -> Result<Option<Walk>, ListError>
        requires fields { fields_of cells.old ≡ [] }
        requires partial { partial_of cells.old ≡ [] }
        ensures takes { IfOk result (λ found. TakesNext (unbegun (list_state self.old) (next_line self.old))
            (rest_of R.remaining self.old) (rest_of R.remaining self.new) (fields_of cells.new) found) }
        ensures failed { self.new.failed ≡ self.old.failed }
        ensures place { self.new.place ≡ self.old.place }
        ensures why { IfErr result (λ error. is_cause error ≡ true) }
    {
        self.cell.clear();
        let mut walk = Walk::new(self.place, self.line);
        'pieces: for _ in 0..u64::MAX {
            self.bytes.fill()?;
            let piece = self.bytes.ready();
            if piece.is_empty() {
                return finish(walk, &self.cell, cells);
            }
            let fed = feed(&mut walk, piece, &mut self.cell, cells)?;
            self.bytes.skip(fed.taken);
            if fed.ended {
                return Ok(Some(walk));
            }
        }
        Err(ListError::Memory)
    }

    /// Reads the next record into `cells`, which is empty where there is none or where it has a fault.
    ///
    /// A record with a fault in its quotes ends where it would end in the toolchain's `csv`, and the
    /// records behind it are read. At `Next::End` no byte is left, and each further call returns it. After
    /// an error each further call is `ListError::Stopped`, and no other call is.
    pub fn read(&mut self, cells: &mut StringRecord) -> Result<Next, ListError>
        ensures gives { IfOk result (λ next. GivesNext (rest_of R.remaining self.old) (rest_of R.remaining self.new)
            self.old self.new (fields_of cells.new) next) }
        ensures goes { OnOk result (has_stopped self.new ≡ false) }
        ensures stops { OnErr result (has_stopped self.new ≡ true) }
        ensures empty { OnErr result (fields_of cells.new ≡ []) }
        ensures stopped { has_stopped self.old ≡ true → result ≡ Err ListError.Stopped }
        ensures why { has_stopped self.old ≡ false → IfErr result (λ error. is_cause error ≡ true) }
    {
        let mut raw = mem::replace(cells, StringRecord::new(self.alloc)).into_byte_record();
        raw.clear();
        if self.failed {
            return Err(ListError::Stopped);
        }
        self.failed = true;
        let found = self.take(&mut raw)?;
        self.failed = false;
        let Some(walk) = found else {
            return Ok(Next::End);
        };
        self.place = walk.place;
        self.line = walk.line;
        self.start = walk.start;
        Ok(finished(walk, raw, cells))
    }
}
