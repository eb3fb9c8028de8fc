//! The handler whose messages have codes beside sentences.
ghost use Rattle.garde_problem.specs.CodedText.{datum_message};

use garde_i18n::{Code, Datum, I18n, Texts, Value};
use std::alloc::{AllocError, Global};
use std::borrow::CowStr;

/// How many marks a message has at the most.
const MARKS: usize = 5;

/// How many digits a number has at the most.
const DIGITS: usize = 20;

/// How many bytes the name and the value of a parameter have at the most.
fn room_of(param: Option<(&'static str, Value<'_>)>) -> usize {
    match param {
        None => 0,
        Some((argument, Value::Number(_))) => argument.len().saturating_add(DIGITS),
        Some((argument, Value::Text(text))) => argument.len().saturating_add(text.len()),
    }
}

/// A handler whose messages have a code and its parameters beside the sentence of another handler, so
/// that one walk gives all three. `Coded::of` parts them, and `problem_to_json_text` writes each.
///
/// The code is the name of the method, and the parameter is its argument: `length_lower_than` with
/// `min`, `url_invalid` with `reason`. They are those of `CodeI18n`. A message begins with the
/// character U+001F, so it is not for people: print the reports of the other handler for them.
#[derive(Drop, Clone, Copy, Debug, Default)]
pub struct WithCodes<H>(pub H);

impl<H: I18n> Texts for WithCodes<H> {
    ghost texts = { λ handler datum. datum_message (λ d. H.text handler.0 d) datum };

    fn text_of(&self, alloc: Global, datum: Datum<'_>) -> Result<CowStr<'static>, AllocError> {
        let Code { name, param } = datum.code();
        let detail = (&&self.0).text_of(alloc, datum)?;
        let room = MARKS
            .saturating_add(name.len())
            .saturating_add(detail.len());
        let mut text = String::with_capacity(alloc, room.saturating_add(room_of(param)))?;
        match param {
            None => write!(text, "\u{1f}{name}\u{1f}{detail}\u{1f}")?,
            Some((argument, value)) => {
                write!(
                    text,
                    "\u{1f}{name}\u{1f}{detail}\u{1f}{argument}\u{1f}{value}\u{1f}"
                )?
            }
        }
        Ok(CowStr::Owned(text))
    }
}
