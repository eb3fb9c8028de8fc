//! An order in JSON: its form with its rules, the languages of its faults, and what is answered to the
//! bytes of one.
#![tactic(auto)]

mod body;
mod check;
mod czech;
mod language;

pub use body::Body;
pub use check::{check_order, faults_of_order, is_order, list_order, value_of_order};
pub use czech::Czech;
pub use language::Language;
