//! Reports and paths as JSON, and back: as trees of `serde_json`, and as text that is written and
//! read with no such tree in memory.
//!
//! A report is an object with the one member `errors`, an array of its faults in order. A fault is
//! an array of two values: its path, and an object with the one member `message`, the text of its
//! error. A path is an array of its components from the root. A component is an array of two texts:
//! its kind, `none`, `key` or `index`, and its text. Every other tree is rejected.
#![tactic(auto)]

mod form;
mod kind;
mod next;
mod path;
mod read;
mod refused;
mod stream;
mod text;
mod value;

pub use kind::kind_name;
pub use read::{report_from_json_text, report_from_tree};
pub use refused::JsonRefused;
pub use text::{first_to_json_text, report_to_json_text};
pub use value::path::{path_from_json, path_to_json};
pub use value::report::{report_from_json, report_to_json};
