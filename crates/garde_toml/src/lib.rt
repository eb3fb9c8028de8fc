//! TOML as the text of a JSON document, which the forms of `garde_schema` read.
#![tactic(auto)]

mod convert;
mod cursor;
mod error;
mod nesting;
mod placed;
mod spots;
mod walk;
mod write;

pub use convert::toml_to_json;
pub use error::TomlError;
pub use placed::{Placed, toml_to_json_with_places};
