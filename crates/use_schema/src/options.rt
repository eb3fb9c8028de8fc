//! What the words of the command line ask for.

use garde_command::{Asked, Program, Spoken, Word};

/// How the program is called.
pub const PROGRAM: Program = Program {
    name: "use_schema",
    usage: "\
usage: use_schema [--language TAG] [--format FORMAT] [N] SCHEMA [FILE | -]
Checks a JSON text by a JSON Schema, and prints every fault of it.

  SCHEMA           the file of the schema (draft 2020-12)
  FILE             checks this file, and without a name or with - standard input
  N                prints at most N faults, N from 1
  --language TAG   prints faults in this language, as de or pt-BR, and without it in English
  --format FORMAT  prints faults as short, json or github with their places, or as plain without;
                   else as short where FILE or - stands, and as plain where none does
  --help           prints this",
    options: &["--language", "--format"],
};

/// By which schema a text is to be checked, and how its faults are printed.
#[derive(Clone, Copy)]
pub struct Options<'w> {
    /// The file of the schema.
    pub schema: &'w str,
    /// Which text is read, and how its faults are printed.
    pub asked: Asked<'w>,
    /// In which language.
    pub spoken: Spoken<'w>,
    /// How many faults are printed at most.
    pub most: usize,
}

impl<'w> Options<'w> {
    /// What these words ask for, or why they cannot be followed.
    pub fn of(words: &'w [Word]) -> Result<Options<'w>, &'static str> {
        let (mut asked, mut spoken) = (Asked::new(), Spoken::new());
        let (mut schema, mut most) = (None, None);
        for word in words {
            let name = word.name.as_str();
            if spoken.take(word)? {
                continue;
            }
            if is_number(name) {
                most = Some(next_most(most, name)?);
            } else if schema.is_none() && !name.starts_with('-') {
                schema = Some(name);
            } else if !asked.take(word)? {
                return Err("there is no such option");
            }
        }
        Ok(Options {
            schema: schema.ok_or("there must be the file of a schema")?,
            asked,
            spoken,
            most: most.unwrap_or(usize::MAX),
        })
    }
}

// Whether a word is a number.
fn is_number(word: &str) -> bool {
    !word.is_empty() && word.bytes().all(|byte| byte.is_ascii_digit())
}

// A number of faults, where there was none before.
fn next_most(before: Option<usize>, word: &str) -> Result<usize, &'static str> {
    match word.parse() {
        Ok(_) if before.is_some() => Err("there must be one number at most"),
        Ok(number) if number > 0 => Ok(number),
        _ => Err("the number of faults must be from 1"),
    }
}
