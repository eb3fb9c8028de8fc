//! TOML as JSON.
ghost use Rattle.std.specs.Prelude.{◌≡◌, ◌≤◌, Some, IfOk, IfErr, string_bytes};
ghost use Rattle.json.specs.Json.{Json, document, max_depth};
ghost use Rattle.toml.specs.Data.{table};
ghost use Rattle.toml.specs.View.{table_view};
ghost use Rattle.garde_toml.specs.Answers.{IsInJson, IsReason};
ghost use Rattle.garde_toml.specs.Nesting.{nesting};
ghost use Rattle.garde_toml.specs.Spelled.{Spells};

use crate::error::TomlError;
use crate::nesting::members_nest_within;
use crate::write::write_table;
use json::Writer;
use std::alloc::{AllocError, Global};
use toml::{Table, table_from_str};

/// How deep a JSON document nests at most, as `json` and `serde_json` read it.
const DEEPEST: usize = 128;

/// A TOML text as the text of a JSON document: a table is an object, with its keys in order, an array
/// is a list, an integer is written by its digits, and a float with a point or an exponent. JSON has
/// no dates, no times and no floats that are not finite: these are bare values in their TOML form, as
/// `write_bare` of `garde_form` writes them. `Text` takes none of them, and `Parsed(Date, ..)` and its
/// like take a date.
///
/// # Errors
///
/// `Parse` where the text is no TOML, `TooDeep` where its tables, arrays and bare values nest deeper
/// than 128, and `Memory`.
pub fn toml_to_json(alloc: Global, text: &str) -> Result<String, TomlError>
    ensures json { IfOk result (λ json. IsInJson text.now (string_bytes json)) }
    ensures reason { IfErr result (IsReason text.now) }
{
    let members = table_from_str(alloc, text)?;
    if !members_nest_within(&members, DEEPEST - 1) {
        return Err(TomlError::TooDeep);
    }
    Ok(table_to_json(alloc, &members)?)
}

// The text of a document that spells the table.
fn table_to_json(alloc: Global, members: &Table) -> Result<String, AllocError>
    requires { nesting (table (table_view members.now)) ≤ max_depth }
    ensures { IfOk result (λ json. (j : Json) × (document (string_bytes json) ≡ Some j)
        × Spells (table (table_view members.now)) j) }
{
    let mut out = Writer::new(Vec::new(alloc));
    write_table(alloc, members, &mut out)?;
    match String::from_utf8(out.into_inner()) {
        Ok(text) => Ok(text),
        Err(_) => unreachable!(),
    }
}
