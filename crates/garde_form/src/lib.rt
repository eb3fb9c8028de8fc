//! Inputs that are no JSON, read by the forms of `garde_schema`: texts that are parsed, and the
//! fields of a web form.
#![tactic(auto)]

mod bare;
mod character;
mod flag;
mod lists;
mod members;
mod numbers;
mod or_empty;
mod parse;
mod parsed;
mod put;
mod reading;
mod text_type;
mod trimmed;
mod web_form;
mod whole_key;

pub use bare::write_bare;
pub use character::Character;
pub use or_empty::OrEmpty;
pub use parse::Parse;
pub use parsed::Parsed;
pub use reading::read_form;
pub use text_type::{TextKind, TextType};
pub use trimmed::Trimmed;
pub use web_form::{FormField, form_fields};
pub use whole_key::WholeKey;
