//! The lines of a table: each a code and its text.
ghost use Rattle.std.specs.Prelude.{◌≡◌, ◌∷◌, [], IfOk, IfErr, IsTrue, MatchOption, slice_get};
ghost use Rattle.garde_catalog.specs.Catalog.{AreLines, HasCode, HasNoOne, HasNotOne, IsInOrder, named_in, only_text, texts_of, texts_under, word_in};

use crate::fault::Wrong;
use crate::messages::{Message, NAMED, code_at, messages};

/// A line of a table: a code and its text, with the parameters in braces.
pub type Entry<'t> = (&'t str, &'t str);

/// The lines of a table, and those that are read without a search.
#[derive(Clone, Copy, Debug, Drop)]
pub(crate) struct Lines<'t> {
    // All lines.
    pub all: &'t [Entry<'t>],
    // The same, if each message of the library is in its place, as in the tables that are shipped, and
    // else none.
    pub ordered: &'t [Entry<'t>],
    // Those that may be of a rule that brings its code.
    pub named: &'t [Entry<'t>],
}

// The one text that a table has under a code, or what is wrong.
fn text_under<'t>(entries: &[Entry<'t>], code: &str) -> Result<&'t str, Wrong>
    ensures ok { IfOk result (λ text. texts_under code.now entries.now ≡ text.now ∷ []) }
    ensures err { IfErr result (HasNotOne (texts_under code.now entries.now)) }
{
    let mut found = None;
    for (name, text) in entries {
        if *name == code {
            if let Some(_) = found {
                return Err(Wrong::Repeated);
            }
            found = Some(*text);
        }
    }
    match found {
        Some(text) => Ok(text),
        None => Err(Wrong::Missing),
    }
}

// The one text of a code, or what is wrong.
pub(crate) fn text_of<'t>(
    entries: &[Entry<'t>],
    others: &[Entry<'t>],
    code: &str,
) -> Result<&'t str, Wrong>
    ensures ok { IfOk result (λ text. texts_of entries.now others.now code.now ≡ text.now ∷ []) }
    ensures err { IfErr result (HasNotOne (texts_of entries.now others.now code.now)) }
{
    match text_under(entries, code) {
        Ok(text) => Ok(text),
        Err(Wrong::Missing) => text_under(others, code),
        Err(wrong) => Err(wrong),
    }
}

// The one text of a code, or the empty text.
pub(crate) fn only_text<'t>(entries: &[Entry<'t>], others: &[Entry<'t>], code: &str) -> &'t str
    ensures { result.now ≡ only_text (texts_of entries.now others.now code.now) }
{
    match text_of(entries, others, code) {
        Ok(text) => text,
        Err(_) => "",
    }
}

// Whether the line in a place has this code.
fn is_at(entries: &[Entry<'_>], place: usize, code: &str) -> bool
    ensures { IsTrue result → HasCode (slice_get entries.now place) code.now }
{
    match entries.get(place) {
        Some((name, _)) => *name == code,
        None => false,
    }
}

// Whether a table has each of these messages in its place.
fn is_in_order(entries: &[Entry<'_>], messages: &[Message]) -> bool
    ensures { IsTrue result → IsInOrder entries.now messages.now }
{
    for (place, (code, _, _)) in messages.iter().enumerate() {
        if !is_at(entries, place, code) {
            return false;
        }
    }
    true
}

// The lines of a table.
pub(crate) fn lines_of<'t>(entries: &'t [Entry<'t>]) -> Lines<'t>
    ensures { AreLines entries.now result }
{
    if NAMED <= entries.len() && is_in_order(entries, messages()) {
        Lines {
            all: entries,
            ordered: entries,
            named: &entries[NAMED..],
        }
    } else {
        Lines {
            all: entries,
            ordered: &[],
            named: entries,
        }
    }
}

// The text of the message in a place: that of the line there, where the table is in order, and else the
// only one that the tables have.
pub(crate) fn word_in<'t>(lines: &Lines<'t>, others: &Lines<'t>, place: usize) -> &'t str
    ensures { result.now ≡ word_in lines.now others.now place }
{
    match lines.ordered.get(place) {
        Some((_, text)) => text,
        None => only_text(lines.all, others.all, code_at(place)),
    }
}

// The one text of a code that a rule brings, if there is one.
pub(crate) fn named_in<'t>(lines: &Lines<'t>, others: &Lines<'t>, code: &str) -> Option<&'t str>
    ensures { MatchOption result (HasNoOne (named_in lines.now others.now code.now))
        (λ text. named_in lines.now others.now code.now ≡ text.now ∷ []) }
{
    match text_of(lines.named, others.named, code) {
        Ok(text) => Some(text),
        Err(_) => None,
    }
}
