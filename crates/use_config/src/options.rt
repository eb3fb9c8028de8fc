//! What the words of the command line ask for.

use garde_command::{Asked, Program, Spoken, Word};

/// How the program is called.
pub const PROGRAM: Program = Program {
    name: "use_config",
    usage: "\
usage: use_config [--language TAG] [--catalog TEXTS] [--format FORMAT] [toml | json] [FILE | -]
Reads the configuration of a service, and prints what it asks for or every fault.

  FILE             reads this file, and without a name or with - standard input
  toml             reads TOML, as without a word
  json             reads JSON, as of a file whose name ends with .json
  --language TAG   prints faults in this language, as de or pt-BR, and without it in English
  --catalog TEXTS  prints faults by the texts of this file, which is written as a configuration is;
                   texts that it lacks are taken from the language, if --language stands
  --format FORMAT  prints faults as short, json or github with their places, or as plain without;
                   else as short where FILE or - stands, and as plain where none does
  --help           prints this",
    options: &["--language", "--catalog", "--format"],
};

/// How a configuration is written.
#[derive(Clone, Copy)]
pub enum Written {
    Toml,
    Json,
}

/// Which configuration is to be read, and how, in which language and by which texts its faults are
/// printed.
#[derive(Clone, Copy)]
pub struct Options<'w> {
    pub asked: Asked<'w>,
    pub spoken: Spoken<'w>,
    /// How the configuration is written, if a word says it.
    pub written: Option<Written>,
    /// The file with the texts of faults.
    pub texts: Option<&'w str>,
}

impl<'w> Options<'w> {
    /// What these words ask for, or why they cannot be followed. Each may be left out and stands once.
    pub fn of(words: &'w [Word]) -> Result<Options<'w>, &'static str> {
        let mut options = Options {
            asked: Asked::new(),
            spoken: Spoken::new(),
            written: None,
            texts: None,
        };
        for word in words {
            options.take(word)?;
        }
        Ok(options)
    }

    // Takes the next word.
    fn take(&mut self, word: &'w Word) -> Result<(), &'static str> {
        match word.name.as_str() {
            "--catalog" => self.texts = Some(self.next_texts(word)?),
            "toml" => self.written = Some(self.next_written(Written::Toml)?),
            "json" => self.written = Some(self.next_written(Written::Json)?),
            _ => return self.take_input(word),
        }
        Ok(())
    }

    // The file behind `--catalog`, where there was none before.
    fn next_texts(&self, word: &'w Word) -> Result<&'w str, &'static str> {
        match &word.value {
            _ if self.texts.is_some() => Err("--catalog must stand once at most"),
            Some(file) => Ok(file.as_str()),
            None => Err("--catalog must be followed by a file"),
        }
    }

    // How a word says that the configuration is written, where none did before.
    fn next_written(&self, written: Written) -> Result<Written, &'static str> {
        match self.written {
            Some(_) => Err("there must be one of toml and json at most"),
            None => Ok(written),
        }
    }

    // Takes a word about the language, the format or the file.
    fn take_input(&mut self, word: &'w Word) -> Result<(), &'static str> {
        if self.spoken.take(word)? || self.asked.take(word)? {
            return Ok(());
        }
        Err("the word is no option, and no name of a file")
    }

    /// How the configuration is written.
    pub fn written(&self) -> Written {
        self.written.unwrap_or(written_in(self.asked.file()))
    }
}

/// How a file of this name is written.
pub fn written_in(file: Option<&str>) -> Written {
    match file {
        Some(name) if name.ends_with(".json") => Written::Json,
        _ => Written::Toml,
    }
}
