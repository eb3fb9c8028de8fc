//! Reports for programs and for people: JSON Pointers, problem details with codes, and text that no
//! fault can forge.
#![tactic(auto)]

mod coded;
mod escaped;
pub mod laws;
mod pointer;
mod problem;
mod with_codes;

pub use coded::{Coded, Params, coded_message};
pub use escaped::Escaped;
pub use pointer::JsonPointer;
pub use problem::{Problem, problem_to_json_text};
pub use with_codes::WithCodes;
