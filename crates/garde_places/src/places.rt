//! The places of the values of a JSON text.
ghost use Rattle.std.specs.Prelude.{◌≡◌, ◌≤◌, [], length, map, Some, IfOk, IsOk};
ghost use Rattle.json.specs.Json.{Json, document};
ghost use Rattle.garde_tape.specs.Reading.{json_of};
ghost use Rattle.garde_places.specs.Places.{IsPlaceOf, IsNamePlace};
ghost use Rattle.garde_places.specs.Fault.{ArePlaced, IsFaultPlace, fault_entry};

use crate::fault::Fault;
use crate::listed::ListedPlaces;
use crate::scan::scan;
use garde_report::{Error, Path, Report};
use garde_tape::{Place, Tape};
use std::alloc::{AllocError, Global};
use std::marker::Model;

/// The places of the values of a JSON text. A contract sees the text.
#[derive(Debug, Drop)]
pub struct Places<'t, 'a> {
    // The list has the place of each token of the text itself.
    listed: ListedPlaces<'t, 'a>,
}

impl<'t, 'a> Model for Places<'t, 'a> {
    ghost use Rattle.std.specs.Prelude.{◌≡◌, ℕ, List};
    ghost use Rattle.garde_places.specs.Scan.{spots};
    ghost use Rattle.garde_tape.specs.Place.{text_start};
    ghost use Rattle.garde_places.specs.declared.lex.Mode.TheVariants.{Between};

    ghost Value = { List ℕ };

    ghost view = { λ a. a.listed.0 };

    ghost invariant = { λ a. a.listed.1 ≡ spots Between text_start a.listed.0 };
}

impl<'t, 'a> Places<'t, 'a> {
    /// The places of a text, in one pass over it. The tape is what `garde_tape::parse` gives of it.
    pub fn of(
        alloc: Global,
        text: &'a str,
        tape: &'t Tape<'a>,
    ) -> Result<Places<'t, 'a>, AllocError>
        requires { document text.now ≡ Some (json_of tape.now) }
        ensures { IfOk result (λ places. places ≡ text.now) }
    {
        let places = scan(alloc, text)?;
        let listed = ListedPlaces::of(text, tape, places);
        Ok(Places { listed })
    }

    /// Where the value begins that the path leads to. Where it leads to none, it is the last value on
    /// its way: a member that is missing has the place of its object. Of members of one name the last
    /// counts. A component leads as a token of a JSON Pointer does: in an object to the member of that
    /// name, in an array to the item of that number. One without a name stays at its value.
    ///
    /// A path of up to 8 components never runs out of memory. It allocates nothing but the names of an
    /// object of more than 256 tokens, once: where there is no memory for them, each path walks along the
    /// object. Paths are best asked for in the order of the text: the walk along a list goes on from the
    /// item that was asked for last, for each of the first 128 components.
    pub fn locate(&mut self, alloc: Global, path: &Path) -> Result<Place, AllocError>
        ensures place { IfOk result (λ place. (j : Json) → document self.old ≡ Some j
            → IsPlaceOf self.old path.now j place) }
        ensures text { self.new ≡ self.old }
        ensures inline { length path.now ≤ 8 → IsOk result }
    {
        self.listed.place_of(alloc, path, false)
    }

    /// Where the name of the member begins that the path leads to. It is the place of the value on the
    /// way to it where that has no such member, and that of the last name where it comes twice. At the
    /// root it is the place of the whole value.
    pub fn locate_name(&mut self, alloc: Global, path: &Path) -> Result<Place, AllocError>
        ensures place { IfOk result (λ place. (j : Json) → document self.old ≡ Some j
            → IsNamePlace self.old path.now j place) }
        ensures text { self.new ≡ self.old }
        ensures inline { length path.now ≤ 8 → IsOk result }
    {
        self.listed.place_of(alloc, path, true)
    }

    /// Where a fault stands: at the name of its member, if its message has the code of a member that is
    /// unknown or comes twice, and else at its value. A message has a code where `WithCodes` of
    /// `garde_problem` made it.
    pub fn locate_fault(
        &mut self,
        alloc: Global,
        path: &Path,
        error: &Error,
    ) -> Result<Place, AllocError>
        ensures place { IfOk result (λ place. (j : Json) → document self.old ≡ Some j
            → IsFaultPlace self.old path.now error.now j place) }
        ensures text { self.new ≡ self.old }
        ensures inline { length path.now ≤ 8 → IsOk result }
    {
        self.listed.place_of_fault(alloc, path, error)
    }

    /// The faults of a report, in its order, each with its place. No fault needs no memory.
    pub fn locate_all<'r>(
        &mut self,
        alloc: Global,
        report: &'r Report,
    ) -> Result<Vec<Fault<'r>>, AllocError>
        ensures faults { IfOk result (λ faults. map fault_entry faults.items ≡ report.now) }
        ensures places { IfOk result (λ faults. (j : Json) → document self.old ≡ Some j
            → ArePlaced self.old j faults.items) }
        ensures text { self.new ≡ self.old }
        ensures empty { report.now ≡ [] → IsOk result }
    {
        self.listed.locate_all(alloc, report)
    }
}
