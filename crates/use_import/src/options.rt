//! What the words of the command line ask for.

use crate::spot::Naming;
use garde_command::{Asked, Program, Spoken, Word};

/// How the program is called.
pub const PROGRAM: Program = Program {
    name: "use_import",
    usage: "\
usage: use_import [--no-header] [--first-row N | --lines] [--language TAG] [--format FORMAT] [MOST] [FILE | -]
Reads a stock list in CSV, and prints every fault of each row.

  FILE             reads this file, and without a name or with - standard input
  --no-header      reads rows without a header row, with the columns code, name, quantity, price, page
  --first-row N    numbers the rows from N, N from 0
  --lines          names each row by the line in which it begins, from 1, in a format without places
  MOST             prints at most MOST faults, MOST from 1
  --language TAG   prints faults in this language, as de or pt-BR, and without it in English
  --format FORMAT  prints faults as short, json or github with their places, or as plain without;
                   else as short where FILE or - stands, and as plain where none does
  --help           prints this",
    options: &["--first-row", "--language", "--format"],
};

/// How a list is to be checked.
#[derive(Clone, Copy)]
pub struct Options<'w> {
    /// Which list is read, and how its faults are printed.
    pub asked: Asked<'w>,
    /// The language in which faults are printed.
    pub spoken: Spoken<'w>,
    /// How many faults are to be printed at most.
    pub most: Option<usize>,
    /// The number of the first row in the whole list.
    pub first_row: Option<usize>,
    /// Whether a header row stands in front of the rows.
    pub has_header: bool,
    /// Whether rows are named by their lines, where faults have no places.
    pub by_line: bool,
}

impl<'w> Options<'w> {
    /// What these words ask for, or why they cannot be followed. Each may be left out and stands once.
    pub fn of(words: &'w [Word]) -> Result<Options<'w>, &'static str> {
        let mut options = Options {
            asked: Asked::new(),
            spoken: Spoken::new(),
            most: None,
            first_row: None,
            has_header: true,
            by_line: false,
        };
        for word in words {
            options.take(word)?;
        }
        if options.by_line && options.first_row.is_some() {
            return Err("--lines and --first-row cannot be combined");
        }
        Ok(options)
    }

    // Takes the next word.
    fn take(&mut self, word: &'w Word) -> Result<(), &'static str> {
        match word.name.as_str() {
            "--first-row" if self.first_row.is_none() => self.first_row = Some(first_row(word)?),
            "--no-header" if self.has_header => self.has_header = false,
            "--lines" if !self.by_line => self.by_line = true,
            "--first-row" | "--no-header" | "--lines" => return Err("a word stands twice"),
            _ => return self.take_input(word),
        }
        Ok(())
    }

    // Takes a word about the language, the format or the file, or a number of faults.
    fn take_input(&mut self, word: &'w Word) -> Result<(), &'static str> {
        if self.spoken.take(word)? || self.asked.take(word)? {
            return Ok(());
        }
        if self.most.is_some() {
            return Err("there must be one number at most");
        }
        self.most = Some(most(&word.name)?);
        Ok(())
    }

    /// How rows are named.
    pub fn naming(&self) -> Naming<'w> {
        match self.asked.printed() {
            Some(printed) => Naming::Placed(printed),
            None if self.by_line => Naming::Line,
            None => Naming::Index,
        }
    }
}

// A number of faults.
fn most(word: &str) -> Result<usize, &'static str> {
    match word.parse() {
        Ok(number) if number > 0 => Ok(number),
        _ => Err("the word must be a number from 1"),
    }
}

// The number of a row, behind its option.
fn first_row(word: &Word) -> Result<usize, &'static str> {
    match word.value_or_empty().parse() {
        Ok(number) => Ok(number),
        Err(_) => Err("a number from 0 must follow --first-row"),
    }
}
