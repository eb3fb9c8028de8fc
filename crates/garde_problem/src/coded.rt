//! Messages that have a code and parameters beside the sentence.
ghost use Rattle.std.specs.Prelude.{◌≡◌, ◌<◌, ◌≤◌, ℕ, [], ◌∷◌, ◌++◌, IfOk, List, MatchOption, OnOk, length, string_bytes};
ghost use Rattle.std.specs.List.{slice_split};
ghost use Rattle.garde_problem.specs.Coded.{IsCut, coded_text, custom, is_mark, message_parts, params_in};
ghost use Rattle.garde_problem.specs.Coded.{pairs, passed, seen};

use std::alloc::{AllocError, Global};

/// The character at the front of a message with a code, and behind each of its parts.
const MARK: char = '\u{1f}';

/// The parameters of a message.
#[derive(Clone, Copy, Debug)]
pub struct Params<'a> {
    /// Each name and each value, with a U+001F behind it.
    pub text: &'a str,
}

impl<'a> Params<'a> {
    /// The name and the value of the next parameter.
    pub fn next(&mut self) -> Option<(&'a str, &'a str)>
        ensures { MatchOption result (params_in self.old.text.now ≡ [])
            (λ p. (params_in self.old.text.now
            ≡ (p.0.now, p.1.now) ∷ params_in self.new.text.now)
            × (length self.new.text.now < length self.old.text.now)) }
    {
        let (name, rest) = cut(self.text)?;
        let (value, rest) = cut_or_all(rest);
        self.text = rest;
        Some((name, value))
    }
}

/// A message in its parts: a code for programs, a sentence for people, and the parameters of both.
#[derive(Clone, Copy, Debug)]
pub struct Coded<'a> {
    /// What is wrong, as a name.
    pub code: &'a str,
    /// What is wrong, as a sentence.
    pub detail: &'a str,
    /// What both speak of.
    pub params: Params<'a>,
}

impl<'a> Coded<'a> {
    /// The parts of a message. One that `WithCodes` or `coded_message` made has its code. Any other
    /// has the code `custom`, and is itself the sentence.
    pub fn of(message: &'a str) -> Coded<'a>
        ensures { seen result ≡ message_parts message.now }
    {
        match coded_parts(message) {
            Some(coded) => coded,
            None => Coded {
                code: "custom",
                detail: message,
                params: Params { text: "" },
            },
        }
    }
}

// The parts of a message with a code.
fn coded_parts<'a>(message: &'a str) -> Option<Coded<'a>>
    ensures { MatchOption result (message_parts message.now ≡ custom message.now)
        (λ c. seen c ≡ message_parts message.now) }
{
    let (front, rest) = cut(message)?;
    if !front.is_empty() {
        return None;
    }
    let (code, rest) = cut(rest)?;
    let (detail, rest) = cut_or_all(rest);
    Some(Coded {
        code,
        detail,
        params: Params { text: rest },
    })
}

// What stands before the first mark, and what stands behind it.
fn cut<'a>(text: &'a str) -> Option<(&'a str, &'a str)>
    ensures { MatchOption result (slice_split is_mark text.now ≡ text.now ∷ [])
        (λ x. IsCut text.now x.0.now x.1.now) }
{
    text.split_once(MARK)
}

// The same, or the whole text and nothing.
fn cut_or_all<'a>(text: &'a str) -> (&'a str, &'a str)
    ensures { (texts : List (List ℕ)) × (slice_split is_mark text.now ≡ result.0.now ∷ texts)
        × (pairs texts ≡ params_in result.1.now) × (length result.1.now ≤ length text.now) }
{
    match cut(text) {
        Some(parts) => parts,
        None => (text, ""),
    }
}

// Writes a text and a mark.
fn push_part(text: &mut String, part: &str) -> Result<(), AllocError>
    ensures { OnOk result (string_bytes text.new ≡ string_bytes text.old ++ part.now ++ 31 ∷ []) }
{
    text.push_str(part)?;
    text.push(MARK)
}

/// A message with a code, for a check of your own: `Coded::of` gives the code, the sentence and the
/// parameters, each with its name. No text in it may have the character U+001F, or it is cut there.
pub fn coded_message(
    alloc: Global,
    code: &str,
    detail: &str,
    params: &[(&str, &str)],
) -> Result<String, AllocError>
    ensures { IfOk result (λ text. string_bytes text ≡ coded_text (record {
      code = code.now;
      detail = detail.now;
      params = passed params.now;
    })) }
{
    let mut text = format!(in alloc; "\u{1f}{code}\u{1f}{detail}\u{1f}")?;
    for &(name, value) in params {
        push_part(&mut text, name)?;
        push_part(&mut text, value)?;
    }
    Ok(text)
}
