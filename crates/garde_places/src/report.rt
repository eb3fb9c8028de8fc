//! The faults of a report, with the places in the text that was read.
ghost use Rattle.std.specs.Prelude.{◌≡◌, IfErr, IfOk, Some, map};
ghost use Rattle.json.specs.Json.{Json, document};
ghost use Rattle.garde_tape.specs.Reading.{json_of};
ghost use Rattle.garde_places.specs.Fault.{ArePlaced, fault_entry};
ghost use Rattle.garde_places.specs.Listed.{AreListed};
ghost use Rattle.garde_places.specs.Refusal.{IsRefusal};

use crate::fault::Fault;
use crate::listed::ListedPlaces;
use crate::scan::scan;
use garde_report::Report;
use garde_tape::{ParseError, Place, Scratch, Tape, parse};
use std::alloc::Global;

/// The faults of a report of a JSON text, in its order, each with its place, as `Places::locate_all` has
/// it. The text is read once more, so ask where there is a fault.
///
/// # Errors
///
/// Those of `garde_tape::parse`. So of a JSON text that is not too long it is `Memory`.
pub fn faults_of<'r>(
    alloc: Global,
    text: &str,
    report: &'r Report,
) -> Result<Vec<Fault<'r>>, ParseError>
    ensures faults { IfOk result (λ faults. map fault_entry faults.items ≡ report.now) }
    ensures places { IfOk result (λ faults. (j : Json) → document text.now ≡ Some j
        → ArePlaced text.now j faults.items) }
    ensures refused { IfErr result (IsRefusal text.now) }
{
    let mut scratch = Scratch::new(alloc);
    let tape = parse(alloc, text, &mut scratch)?;
    match scan(alloc, text) {
        Ok(places) => list_all(alloc, text, &tape, places, report),
        Err(_) => Err(ParseError::Memory),
    }
}

// The places are those of the tokens of the text.
fn list_all<'a, 'r>(
    alloc: Global,
    text: &'a str,
    tape: &Tape<'a>,
    places: Vec<Place>,
    report: &'r Report,
) -> Result<Vec<Fault<'r>>, ParseError>
    requires { document text.now ≡ Some (json_of tape.now) }
    ensures faults { IfOk result (λ faults. map fault_entry faults.items ≡ report.now) }
    ensures places { IfOk result (λ faults. (j : Json) → document text.now ≡ Some j
        → AreListed places.items j faults.items) }
    ensures refused { IfErr result (λ error. error ≡ ParseError.Memory) }
{
    match ListedPlaces::of(text, tape, places).locate_all(alloc, report) {
        Ok(faults) => Ok(faults),
        Err(_) => Err(ParseError::Memory),
    }
}

/// The same of a text in another format that was written as JSON, with a place for each token of it, as
/// `ListedPlaces::locate_all` has it.
///
/// # Errors
///
/// Those of `garde_tape::parse`, of what was written.
pub fn listed_faults_of<'r>(
    alloc: Global,
    json: &str,
    places: Vec<Place>,
    report: &'r Report,
) -> Result<Vec<Fault<'r>>, ParseError>
    ensures faults { IfOk result (λ faults. map fault_entry faults.items ≡ report.now) }
    ensures places { IfOk result (λ faults. (j : Json) → document json.now ≡ Some j
        → AreListed places.items j faults.items) }
    ensures refused { IfErr result (IsRefusal json.now) }
{
    let mut scratch = Scratch::new(alloc);
    let tape = parse(alloc, json, &mut scratch)?;
    list_all(alloc, json, &tape, places, report)
}
