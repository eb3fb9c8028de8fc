//! What the words of the command line ask for, and how the end of a run is reported.
ghost use Rattle.std.specs.Prelude.{◌≡◌, ◌≢◌, ℕ, IfSome, IfNone, Option, map, string_bytes};
ghost use Rattle.garde_check.specs.declared.mode.Command.{Command};
ghost use Rattle.garde_check.specs.Words.{words_of, AskFor, IsNumber, status_of, line_of};

use crate::mode::Command;
use crate::outcome::{Outcome, RunError};

// What words without a number of faults ask for, or `None` where they are wrong.
fn command(words: &[String]) -> Option<Command>
    ensures some { IfSome result (λ c. map string_bytes words.now ≡ words_of c) }
    ensures none { IfNone result ((c : Command) → map string_bytes words.now ≢ words_of c) }
{
    match words {
        [] => Some(Command::Text),
        [word] => match word.as_str() {
            "--nodes" => Some(Command::Nodes),
            "--json" => Some(Command::Json),
            "json" => Some(Command::Body),
            _ => None,
        },
        _ => None,
    }
}

// The number that a text is, or `None` where it is none.
fn number(text: &str) -> Option<usize>
    ensures some { IfSome result (λ n. IsNumber text.now n) }
    ensures none { IfNone result ((n : ℕ) → IsNumber text.now n → ⊥) }
{
    match text.parse() {
        Ok(n) => Some(n),
        Err(_) => None,
    }
}

// What the words after a number of faults ask for, or `None` where they are wrong.
fn first_command(words: &[String]) -> Option<Command>
    ensures some { IfSome result (λ c.
        (map string_bytes words.now ≡ words_of c) × (c ≢ Command.Nodes)) }
    ensures none { IfNone result ((c : Command)
        → c ≢ Command.Nodes → map string_bytes words.now ≢ words_of c) }
{
    match command(words) {
        Some(Command::Nodes) => None,
        asked => asked,
    }
}

/// What the words after the program's name ask for, and how many faults are written at most where
/// they begin with `--most` and a number. `None` where they are wrong.
pub fn request(words: &[String]) -> Option<(Command, Option<usize>)>
    ensures some { IfSome result (λ asked. AskFor (map string_bytes words.now) asked.0 asked.1) }
    ensures none { IfNone result ((c : Command) (most : Option ℕ)
        → AskFor (map string_bytes words.now) c most → ⊥) }
{
    match words {
        [option, text, rest @ ..] if option.as_str() == "--most" => {
            let most = number(text.as_str())?;
            Some((first_command(rest)?, Some(most)))
        }
        _ => Some((command(words)?, None)),
    }
}

/// The exit status after a run: 0 where no fault was found, 1 where one was, 2 where the run
/// failed.
pub fn status(answer: &Result<Outcome, RunError>) -> u8
    ensures { result ≡ status_of answer.now }
{
    match answer {
        Ok(Outcome::Valid) => 0,
        Ok(Outcome::Faults) => 1,
        Err(_) => 2,
    }
}

/// The line on standard error that says why a run failed, without its line feed.
pub fn fault_line(error: &RunError) -> &'static str
    ensures { result.now ≡ line_of error.now }
{
    match error {
        RunError::NotUtf8 => "garde_check: the input is not UTF-8",
        RunError::BadBody => "garde_check: the body is not a request",
        RunError::Read => "garde_check: the input could not be read",
        RunError::Write => "garde_check: the output could not be written",
        RunError::Memory => "garde_check: out of memory",
    }
}
