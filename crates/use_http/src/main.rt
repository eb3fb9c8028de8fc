//! Judges the orders that come on one connection: HTTP on standard input, the answers on standard
//! output.
#![tactic(auto)]

mod list_orders;
mod order;
mod service;

use crate::service::{Orders, ROUTES};
use garde_command::Program;
use garde_service::run;
use std::process::ExitCode;

/// A longer body is rejected, where the command line names no other length.
const MOST: usize = 1024 * 1024;

/// The title of the problem details of an input with faults.
const TITLE: &str = "the input has faults";

/// How the program is called.
const PROGRAM: Program = Program {
    name: "use_http",
    usage: "\
usage: use_http [BYTES] [--no-date]
Answers the HTTP requests of standard input on standard output.

  BYTES      reads bodies of so many bytes at most, 1048576 without it
  --no-date  leaves out the dates of answers
  --help     prints this",
    options: &[],
};

fn main(rt: HostRuntime) -> ExitCode {
    PROGRAM.end(&rt, run(&rt, &PROGRAM, MOST, TITLE, ROUTES, Orders))
}
