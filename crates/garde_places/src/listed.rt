//! The places of the values of a text that was written as JSON.
ghost use Rattle.std.specs.Prelude.{◌≡◌, ◌≤◌, [], length, map, slice_index_or, Some, IfOk, IsOk};
ghost use Rattle.json.specs.Json.{Json, document};
ghost use Rattle.garde_tape.specs.Reading.{json_of};
ghost use Rattle.garde_tape.specs.Place.{text_start};
ghost use Rattle.garde_places.specs.Fault.{fault_entry};
ghost use Rattle.garde_places.specs.Listed.{AreListed, IsFaultSpot, IsSpotBy};

use crate::fault::{Fault, speaks_of_name};
use crate::find::{Mark, find_token, no_marks};
use crate::index::Index;
use crate::way::way_of;
use garde_problem::Coded;
use garde_report::{Error, Path, Report};
use garde_tape::{Place, Tape};
use json::Node;
use std::alloc::{AllocError, Global};
use std::marker::Model;

/// The places of the values of a text in another format, as TOML, that was written as JSON. Whoever
/// wrote it lists a place for each token of the JSON text. A contract sees the JSON text and the list.
#[derive(Debug, Drop)]
pub struct ListedPlaces<'t, 'a> {
    json: &'a str,
    nodes: &'t [Node<'a>],
    places: Vec<Place>,
    marks: [Mark; 128],
    index: Index<'a>,
}

impl<'t, 'a> Model for ListedPlaces<'t, 'a> {
    ghost use Rattle.std.specs.Prelude.{ℕ, List};
    ghost use Rattle.garde_tape.specs.declared.place.Place.{Place};
    ghost use Rattle.garde_places.specs.Listed.{IsTapeOf};

    ghost Value = { List ℕ × List Place };

    ghost view = { λ a. (a.json.now, a.places.items) };

    ghost invariant = { λ a. IsTapeOf a.json.now a.nodes.now a.marks a.index };
}

/// The place of a token of that index.
fn place_at_token(places: &[Place], token: usize) -> Place
    ensures { result ≡ slice_index_or places.now token text_start }
{
    match places.get(token) {
        Some(place) => *place,
        None => Place { line: 1, column: 1 },
    }
}

impl<'t, 'a> ListedPlaces<'t, 'a> {
    /// The places of a text. The tape is what `garde_tape::parse` gives of the JSON text, and the list
    /// has a place for each of its tokens in their order: a bracket, a name, and a value without parts
    /// is one token each. A token that the list has no place for stands at line 1, column 1.
    pub fn of(json: &'a str, tape: &'t Tape<'a>, places: Vec<Place>) -> ListedPlaces<'t, 'a>
        requires { document json.now ≡ Some (json_of tape.now) }
        ensures { result ≡ (json.now, places.items) }
    {
        // So it is known that a value begins in the tape.
        let _root = tape.root();
        let index = Index::new(*places.allocator());
        ListedPlaces {
            json,
            nodes: tape.nodes(),
            places,
            marks: no_marks(),
            index,
        }
    }

    /// The place of the value that a path leads to, or that of the name of its member, as `Places` has it.
    pub(crate) fn place_of(
        &mut self,
        alloc: Global,
        path: &Path,
        by_name: bool,
    ) -> Result<Place, AllocError>
        ensures place { IfOk result (λ place. (j : Json) → document self.old.0 ≡ Some j
            → IsSpotBy by_name self.old.1 path.now j place) }
        ensures text { self.new ≡ self.old }
        ensures inline { length path.now ≤ 8 → IsOk result }
    {
        let way = way_of(alloc, path)?;
        let token = find_token(
            self.nodes,
            &mut self.index,
            &mut self.marks,
            way.as_slice(),
            by_name,
        );
        Ok(place_at_token(&self.places, token))
    }

    /// Where a fault stands, as `Places` has it.
    pub(crate) fn place_of_fault(
        &mut self,
        alloc: Global,
        path: &Path,
        error: &Error,
    ) -> Result<Place, AllocError>
        ensures place { IfOk result (λ place. (j : Json) → document self.old.0 ≡ Some j
            → IsFaultSpot self.old.1 path.now error.now j place) }
        ensures text { self.new ≡ self.old }
        ensures inline { length path.now ≤ 8 → IsOk result }
    {
        let by_name = speaks_of_name(Coded::of(error.message()).code);
        self.place_of(alloc, path, by_name)
    }

    /// The faults of a report, in its order, each with its place: that of the token with which the
    /// value at its path begins in JSON, or the name of its member, as `Places::locate_fault` has it.
    /// No fault needs no memory.
    pub fn locate_all<'r>(
        &mut self,
        alloc: Global,
        report: &'r Report,
    ) -> Result<Vec<Fault<'r>>, AllocError>
        ensures faults { IfOk result (λ faults. map fault_entry faults.items ≡ report.now) }
        ensures places { IfOk result (λ faults. (j : Json) → document self.old.0 ≡ Some j
            → AreListed self.old.1 j faults.items) }
        ensures text { self.new ≡ self.old }
        ensures empty { report.now ≡ [] → IsOk result }
    {
        let mut faults = Vec::new(alloc);
        for (path, error) in report.iter() {
            let place = self.place_of_fault(alloc, path, error)?;
            faults.push(Fault { place, path, error })?;
        }
        Ok(faults)
    }
}
