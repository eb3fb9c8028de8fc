//! Tests by what they are of.

mod bodies;
mod bounds;
mod cases;
mod checked;
mod choices;
mod counted;
mod csv_records;
mod decimals;
mod enums;
mod first;
mod flattened;
mod form;
mod forms;
mod import;
mod json_texts;
mod kept;
mod languages;
mod list_rules;
mod lists;
mod long;
mod long_text;
mod maps;
mod members;
mod nested;
mod nulls;
mod numbers;
mod only_members;
mod own_texts;
mod own_type;
mod parsed;
mod ported_forms;
mod prepared;
mod rows;
mod signup;
mod sizes;
mod texts;
mod told;
mod toml;
mod tuples;
mod unions;
mod unneeded;
mod wide_numbers;

use std::borrow::CowStr;
use std::process::Abort;

/// Whether a text was made, and is this one.
fn is_text<E: Drop>(made: Result<String, E>, text: &str) -> bool {
    match made {
        Ok(made) => made.as_str() == text,
        Err(_) => false,
    }
}

/// Whether a text of a handler was made, and is this one.
fn is_handed<E: Drop>(made: Result<CowStr<'static>, E>, text: &str) -> bool {
    match made {
        Ok(made) => made.as_str() == text,
        Err(_) => false,
    }
}

/// The value, where a test asks nothing of its being missing.
trait OrEnd<T> {
    /// The value, or the end of the test.
    fn or_end(self, rt: &impl Abort) -> T;
}

impl<T: Drop, E: Drop> OrEnd<T> for Result<T, E> {
    fn or_end(self, rt: &impl Abort) -> T {
        match self {
            Ok(value) => value,
            Err(_) => rt.abort(),
        }
    }
}

impl<T: Drop> OrEnd<T> for Option<T> {
    fn or_end(self, rt: &impl Abort) -> T {
        match self {
            Some(value) => value,
            None => rt.abort(),
        }
    }
}
