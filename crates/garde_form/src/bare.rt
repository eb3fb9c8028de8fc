//! Values that were written without quotes, of a kind that JSON does not have.
ghost use Rattle.std.specs.Prelude.{◌≡◌, ◌&&◌, ◌+◌, ◌<◌, length, codes, Some, OnErr, OnOk, option_map};
ghost use Rattle.json.specs.Find.{as_number};
ghost use Rattle.json.specs.Print.{token_text};
ghost use Rattle.json.specs.Token.{string};
ghost use Rattle.json.specs.Tree.{json_tokens};
ghost use Rattle.garde_form.specs.Bare.{AreWritten, bare, bare_text, is_mark, text_in};

use crate::parse::Parse;
use crate::parsed::text_of;
use garde_schema::{TextRef, Tree};
use json::Writer;
use std::alloc::AllocError;

/// The number in front of a bare value.
const MARK: &str = "-0";

/// Writes a bare value: what an input has without quotes, and JSON does not have, as a date of TOML.
/// It is a list of the number `-0` and of its text, as `[-0,"1979-05-27"]`. No form takes that number,
/// so `Any` alone, and a list of `Any`, take a bare value, and `Parsed` of a parser that `is_bare`, which
/// reads the text.
///
/// # Errors
///
/// `AllocError`, where the writer has no room for the text and 8 bytes, and memory runs out.
pub fn write_bare(text: &str, out: &mut Writer) -> Result<(), AllocError>
    ensures memory { OnErr result (out.old.spare < length (token_text (string text.now)) + 8) }
    ensures written { OnOk result (AreWritten (json_tokens (bare text.now)) out.old out.new) }
    ensures read { bare_text (bare text.now) ≡ Some text.now }
{
    out.begin_array()?;
    out.number(MARK)?;
    out.string(text)?;
    out.end_array()
}

// Whether a value is the mark.
fn is_mark(tree: &Tree<'_, '_>) -> bool
    ensures { result ≡ is_mark (as_number tree.now) }
{
    match tree.as_number() {
        Some(text) => text == MARK,
        None => false,
    }
}

// The text of a bare value.
fn bare_text<'a>(tree: &Tree<'_, 'a>) -> Option<TextRef<'a>>
    ensures { result ≡ bare_text tree.now }
{
    let mut items = tree.items()?;
    let first = items.next()?;
    let text = items.next()?;
    if items.next().is_some() || !is_mark(&first) {
        return None;
    }
    text_of(&text)
}

/// The text that this parser reads: that of a text and, where it takes bare values, that of one.
pub(crate) fn text_for<'a, P: Parse>(parser: &P, tree: &Tree<'_, 'a>) -> Option<TextRef<'a>>
    ensures { result ≡ text_in (P.bare parser.now) tree.now }
{
    match text_of(tree) {
        Some(text) => Some(text),
        None if parser.is_bare() => bare_text(tree),
        None => None,
    }
}
