//! Where in a JSON text the faults of a report stand: the line and the column of each.
#![tactic(auto)]

mod escape;
mod fault;
mod find;
mod format;
mod github;
mod index;
mod json_line;
mod lex;
mod listed;
mod order;
mod places;
mod printed;
mod report;
mod scan;
mod short;
mod walk;
mod way;

pub use fault::Fault;
pub use format::Format;
pub use garde_tape::{Place, Stop, place_of_byte, stop_of, stop_of_utf8};
pub use github::GitHub;
pub use json_line::JsonLine;
pub use listed::ListedPlaces;
pub use order::sort_by_place;
pub use places::Places;
pub use printed::Printed;
pub use report::{faults_of, listed_faults_of};
pub use short::Short;
