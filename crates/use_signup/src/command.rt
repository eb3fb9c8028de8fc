//! What the command line asks for.

use garde_command::{Program, Spoken, Word};
use garde_service::{Serving, Sites};

/// A longer body is rejected, where the command line names no other length.
pub const MOST: usize = 64 * 1024;

/// How the program is called.
pub const PROGRAM: Program = Program {
    name: "use_signup",
    usage: "\
usage: use_signup [--language TAG] [--page] [FILE | -]
       use_signup --serve [--any-site] [BYTES] [--no-date]
Reads a web form, and welcomes who signs up or prints every fault of the form.

  FILE            reads this file, and without a name or with - standard input
  --language TAG  answers in this language, as de or pt-BR, and without it in English
  --page          prints faults on a page with the form, what was sent but for passwords, and each fault
                  beside its field; its labels are Czech or Arabic where the language is, and else English
  --serve         answers the HTTP requests of standard input on standard output: the form, and what is sent
  --any-site      takes a form that a page of another site sent, which is rejected without it
  BYTES           reads bodies of so many bytes at most, 65536 without it
  --no-date       leaves out the dates of answers
  --help          prints this",
    options: &["--language"],
};

/// What the words of the command line ask for.
#[derive(Clone, Copy)]
pub enum Task<'w> {
    /// The form of this file, or of standard input, is judged, and answered in this language, by lines
    /// or as a page.
    Judge {
        spoken: Spoken<'w>,
        page: bool,
        file: Option<&'w str>,
    },
    /// Requests are answered, with forms of these sites.
    Serve(Sites, Serving),
}

impl<'w> Task<'w> {
    /// What the words after the program's name ask for. Of other words it says what is wrong with them.
    pub fn of(words: &'w [Word]) -> Result<Task<'w>, &'static str> {
        match words {
            [word, rest @ ..] if word.name.as_str() == "--serve" => Task::serving(rest),
            _ => Task::judging(words),
        }
    }

    // How these words ask for a form to be judged.
    fn judging(words: &'w [Word]) -> Result<Task<'w>, &'static str> {
        let mut spoken = Spoken::new();
        let (mut page, mut named) = (false, None);
        for word in words {
            if spoken.take(word)? {
                continue;
            }
            match word.name.as_str() {
                "--page" => page = true,
                text if text != "-" && text.starts_with("-") => return Err("the word is no option"),
                _ if named.is_some() => return Err("there must be one file at most"),
                text => named = Some(text),
            }
        }
        let file = named.filter(|name| *name != "-");
        Ok(Task::Judge { spoken, page, file })
    }

    // How the words behind `--serve` ask for requests to be answered.
    fn serving(words: &[Word]) -> Result<Task<'w>, &'static str> {
        match words {
            [word, rest @ ..] if word.name.as_str() == "--any-site" => {
                Ok(Task::Serve(Sites::Any, Serving::of(rest)?))
            }
            _ => Ok(Task::Serve(Sites::Own, Serving::of(words)?)),
        }
    }
}
