//! What the words of the command line ask for.
use example_import::run::Batch;
use garde_command::{Asked, Program, Spoken, Word};

/// How the program is called.
pub const PROGRAM: Program = Program {
    name: "use_store",
    usage: "\
usage: use_store FILE [--batch N | --all-or-nothing] [--language TAG] [--format FORMAT] [LIST | -]
       use_store FILE --list
Stores the valid rows of a stock list in CSV in a SQLite file, and prints every fault of the others.
Or prints the rows of such a file as a list in CSV.

  FILE              is made if it is not there
  LIST              is the list, and without a name or with - it is read on standard input
  --batch N         keeps the rows after every N rows of the list, N from 1 (1000 where it is left out)
  --all-or-nothing  keeps the rows at the end, if no row has a fault
  --language TAG    prints faults in this language, as de or pt-BR, and without it in English
  --format FORMAT   prints faults as short, json or github with their places, or as plain without;
                    else as short where LIST or - stands, and as plain where none does
  --list            prints the rows of the file
  --help            prints this",
    options: &["--batch", "--language", "--format"],
};

/// How many rows are kept together where no word says it.
const BATCH: usize = 1000;

/// How a list is to be stored.
#[derive(Clone, Copy)]
pub struct Options<'w> {
    /// The SQLite file.
    pub path: &'w str,
    /// Which list is read, and how its faults are printed.
    pub asked: Asked<'w>,
    /// The language in which faults are printed.
    pub spoken: Spoken<'w>,
    /// After how many rows they are kept.
    pub batch: Option<usize>,
    /// Whether they are kept at the end alone.
    pub is_whole: bool,
}

/// What is to be done.
#[derive(Clone, Copy)]
pub enum Task<'w> {
    /// Rows are stored.
    Store(Options<'w>),
    /// The rows of this file are printed.
    List(&'w str),
}

const NO_FILE: &str = "the first word must be a file";

impl<'w> Task<'w> {
    /// What these words ask for, or why they cannot be followed: a file, and behind it `--list`, or the
    /// words of an import. A file whose name begins with `--` is written `./--name`.
    pub fn of(words: &'w [Word]) -> Result<Task<'w>, &'static str> {
        let Some((first, rest)) = words.split_first() else {
            return Err(NO_FILE);
        };
        let path = first.name.as_str();
        if path.starts_with("--") {
            return Err(NO_FILE);
        }
        match rest {
            [only] if only.name.as_str() == "--list" => Ok(Task::List(path)),
            _ => Ok(Task::Store(Options::of(path, rest)?)),
        }
    }
}

impl<'w> Options<'w> {
    // The words of an import. Each may be left out and stands once.
    fn of(path: &'w str, words: &'w [Word]) -> Result<Options<'w>, &'static str> {
        let mut options = Options {
            path,
            asked: Asked::new(),
            spoken: Spoken::new(),
            batch: None,
            is_whole: false,
        };
        for word in words {
            options.take(word)?;
        }
        Ok(options)
    }

    // Takes the next word.
    fn take(&mut self, word: &'w Word) -> Result<(), &'static str> {
        match word.name.as_str() {
            "--batch" if self.batch.is_none() => self.batch = Some(rows_each(word)?),
            "--all-or-nothing" if !self.is_whole => self.is_whole = true,
            _ => return self.take_input(word),
        }
        Ok(())
    }

    // Takes a word about the language, the format or the list.
    fn take_input(&mut self, word: &'w Word) -> Result<(), &'static str> {
        if self.spoken.take(word)? || self.asked.take(word)? {
            return Ok(());
        }
        Err("an unknown word, or one too many")
    }

    /// When the rows are kept.
    pub fn batch(&self) -> Batch {
        if self.is_whole {
            Batch::All
        } else {
            Batch::Items(self.batch.unwrap_or(BATCH))
        }
    }
}

/// How many rows are kept together.
fn rows_each(word: &Word) -> Result<usize, &'static str> {
    match word.value_or_empty().parse() {
        Ok(number) if number > 0 => Ok(number),
        _ => Err("a number from 1 must follow --batch"),
    }
}
