//! The places of all tokens, in one pass over the text.
ghost use Rattle.std.specs.Prelude.{◌≡◌, ◌≤◌, length, IfOk};
ghost use Rattle.garde_places.specs.Scan.{spots};
ghost use Rattle.garde_tape.specs.Place.{text_start};
ghost use Rattle.garde_places.specs.declared.lex.Mode.TheVariants.{Between as FromBetween};

use crate::lex::Mode;
use garde_tape::Place;
use std::alloc::{AllocError, Global};

/// The place of each token, in the order of the text.
pub(crate) fn scan(alloc: Global, text: &str) -> Result<Vec<Place>, AllocError>
    ensures { IfOk result (λ v. v.items ≡ spots FromBetween text_start text.now) }
{
    let mut found = Vec::new(alloc);
    let mut mode = Mode::Between;
    let mut here = Place { line: 1, column: 1 };
    for byte in text.as_bytes() {
        let (begins, next) = mode.turn(*byte);
        if begins {
            found.push(here)?;
        }
        mode = next;
        here = here.past(*byte);
    }
    Ok(found)
}
