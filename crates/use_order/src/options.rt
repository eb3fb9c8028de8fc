//! What the words of the command line ask for.

use garde_command::{Asked, Program, Word};

/// How the program is called.
pub const PROGRAM: Program = Program {
    name: "use_order",
    usage: "\
usage: use_order [--format FORMAT] [N] [FILE | -]
Reads a page of orders in JSON, and confirms each of them or prints every fault.

  FILE             reads this file, and without a name or with - standard input
  N                prints at most N faults, N from 1
  --format FORMAT  prints faults as short, json or github with their places, or as plain without;
                   else as short where FILE or - stands, and as plain where none does
  --help           prints this",
    options: &["--format"],
};

/// How a page is to be judged.
#[derive(Clone, Copy)]
pub struct Options<'w> {
    /// Which page is read, and how its faults are printed.
    pub asked: Asked<'w>,
    /// How many faults are printed at most.
    pub most: usize,
}

impl<'w> Options<'w> {
    /// What these words ask for, or why they cannot be followed. Each may be left out and stands once.
    pub fn of(words: &'w [Word]) -> Result<Options<'w>, &'static str> {
        if words.iter().any(|word| word.name.as_str() == "--help") {
            return Err("--help must stand alone");
        }
        let (mut asked, mut most) = (Asked::new(), None);
        for word in words {
            if !asked.take(word)? {
                most = Some(next_most(most, &word.name)?);
            }
        }
        Ok(Options {
            asked,
            most: most.unwrap_or(usize::MAX),
        })
    }
}

// A number of faults, where there was none before.
fn next_most(before: Option<usize>, word: &str) -> Result<usize, &'static str> {
    match word.parse() {
        Ok(_) if before.is_some() => Err("there must be one number at most"),
        Ok(number) if number > 0 => Ok(number),
        _ => Err("the word must be a number from 1"),
    }
}
