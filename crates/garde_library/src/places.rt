//! The places of the faults of a body.
ghost use Rattle.std.specs.Prelude.{◌≡◌, IfOk, map};
ghost use Rattle.garde_library.specs.Places.{AreFound, ArePlaces, ArePlacesOf, place_of};

use crate::place::Place;
use garde::Report;
use garde_places::{Fault, faults_of};
use garde_schema::FirstReadError;
use garde_tape::without_mark;
use std::alloc::{AllocError, Global};

fn place_of(fault: &Fault<'_>) -> Place
    ensures { result ≡ place_of fault.now }
{
    Place {
        line: fault.place.line as u64,
        column: fault.place.column as u64,
    }
}

fn places_of(alloc: Global, faults: &[Fault<'_>]) -> Result<Vec<Place>, AllocError>
    ensures { IfOk result (λ places. map place_of faults.now ≡ places.items) }
{
    let mut places = Vec::with_capacity(alloc, faults.len())?;
    for fault in faults {
        places.push(place_of(fault))?;
    }
    Ok(places)
}

// The places of the faults of bytes that were judged to be a JSON text: so they are read, if there is
// memory.
fn of_report(alloc: Global, bytes: &[u8], report: &Report) -> Result<Vec<Place>, AllocError>
    ensures { IfOk result (λ places. ArePlacesOf bytes.now report.now places.items) }
{
    let Ok(text) = str::from_utf8(without_mark(bytes)) else {
        return Err(AllocError);
    };
    match faults_of(alloc, text, report) {
        Ok(faults) => places_of(alloc, &faults),
        Err(_) => Err(AllocError),
    }
}

fn of_read(
    alloc: Global,
    bytes: &[u8],
    read: &Result<(), FirstReadError>,
) -> Result<Vec<Place>, AllocError>
    ensures { IfOk result (λ places. ArePlaces bytes.now read.now places.items) }
{
    match read {
        Err(FirstReadError::All(report)) => of_report(alloc, bytes, report),
        Err(FirstReadError::First(report)) => of_report(alloc, bytes, report),
        Ok(()) | Err(FirstReadError::Parse(_) | FirstReadError::Memory) => Ok(Vec::new(alloc)),
    }
}

/// The places of the faults of the result of reading bytes, where there is room for one.
pub(crate) fn find_places(
    alloc: Global,
    bytes: &[u8],
    read: &Result<(), FirstReadError>,
    room: usize,
) -> Result<Vec<Place>, AllocError>
    ensures { IfOk result (λ places. AreFound bytes.now read.now room places.items) }
{
    if room == 0 {
        return Ok(Vec::new(alloc));
    }
    of_read(alloc, bytes, read)
}
