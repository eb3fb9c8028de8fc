//! The records of a list in CSV, as RFC 4180 has them: a record whose quotes are not those of the
//! standard is rejected, with the line where they begin.
#![tactic(auto)]

mod bytes;
mod fault;
mod feed;
mod list_error;
mod place;
mod records;
mod run;
mod walk;

pub use fault::Fault;
pub use list_error::ListError;
pub use records::{Next, Records};
