//! The words of a command line, the bytes of its input, and what a program prints of it.
#![tactic(auto)]

mod asked;
mod input;
mod printing;
mod program;
mod spoken;
mod word;

pub use asked::Asked;
pub use input::{open_file, read_input};
pub use printing::{print_faults, print_json_stop, print_report, print_stop};
pub use program::{NOT_JUDGED, Program, args, is_help, status_of};
pub use spoken::Spoken;
pub use word::{Word, parted};
