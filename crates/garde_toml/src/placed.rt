//! TOML as JSON, with the places of what is written.
ghost use Rattle.std.specs.Prelude.{IfErr, IfOk, string_bytes};
ghost use Rattle.garde_toml.specs.Answers.{IsInJson, IsReason};

use crate::convert::toml_to_json;
use crate::error::TomlError;
use crate::walk::token_places;
use garde_tape::Place;
use std::alloc::Global;
use toml_parser::ParseError;

/// A TOML text as the text of a JSON document, and where in the TOML text its tokens stand.
#[derive(Debug, Drop)]
pub struct Placed {
    /// The JSON document.
    pub json: String,
    /// The place in the TOML text of each token of the JSON text, in the order of the tokens: of a name
    /// where its key begins, and of a value where it begins. A table that a header begins has the place
    /// of the header, and one that dotted keys make that of the first of them.
    pub places: Vec<Place>,
}

/// A TOML text as `toml_to_json` writes it, and the places of what is written.
///
/// That each token has its place is tested alone: the parser of the toolchain reports none, so
/// the text is walked once more by the readers below it.
///
/// # Errors
///
/// Those of `toml_to_json`.
pub fn toml_to_json_with_places(alloc: Global, text: &str) -> Result<Placed, TomlError>
    ensures json { IfOk result (λ placed. IsInJson text.now (string_bytes placed.json)) }
    ensures reason { IfErr result (IsReason text.now) }
{
    let json = toml_to_json(alloc, text)?;
    match token_places(alloc, text) {
        Ok(places) => Ok(Placed { json, places }),
        Err(ParseError::OutOfMemory) => Err(TomlError::Memory),
        // No TOML text leads here.
        Err(ParseError::At(_, _, _)) => Ok(Placed {
            json,
            places: Vec::new(alloc),
        }),
    }
}
