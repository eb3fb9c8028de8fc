//! A path as a JSON Pointer.
ghost use Rattle.std.specs.Prelude.{◌≡◌, ◌∷◌, Some};
ghost use Rattle.std.specs.Bool.{OnTrue};
ghost use Rattle.std.specs.Char.{encode_utf8};
ghost use Rattle.std.specs.Fmt.{WritesOnOk};
ghost use Rattle.garde_problem.specs.Pointer.{path_pointer, token};

use garde_report::Path;
use std::alloc::Global;
use std::fmt;

/// A path that prints as a JSON Pointer (RFC 6901): each component as `/` and its text, in which
/// `~` is `~0` and `/` is `~1`. The root prints nothing, and a component without a name prints `/`
/// and its text, which is empty for `NoKey`.
///
/// Two paths print the same exactly where their components have the same texts, whatever bytes the
/// texts have. `to_string(alloc)` makes a `String` of it. A path of more than 8 components allocates
/// while it prints.
#[derive(Clone, Copy, Debug)]
pub struct JsonPointer<'a>(pub Global, pub &'a Path);

impl fmt::Display for JsonPointer<'_> {
    ghost output = { λ pointer. Some (path_pointer pointer.1.now) };

    fn fmt<W: fmt::Write>(&self, f: &mut fmt::Formatter<W>) -> fmt::Result {
        write_pointer(self.0, self.1, f)
    }
}

fn write_pointer<W: fmt::Write>(
    alloc: Global,
    path: &Path,
    f: &mut fmt::Formatter<W>,
) -> fmt::Result
    ensures { WritesOnOk W.write_str_gives f.old result (path_pointer path.now) f.new }
{
    let mut components = path.iter(alloc)?;
    while let Some((_kind, text)) = components.next_back() {
        f.write_str("/")?;
        write_token(text, f)?;
    }
    Ok(())
}

// Writes a text as a token of a pointer. Most texts are their own tokens.
fn write_token<W: fmt::Write>(text: &str, f: &mut fmt::Formatter<W>) -> fmt::Result
    ensures { WritesOnOk W.write_str_gives f.old result (token text.now) f.new }
{
    if is_plain(text.as_bytes()) {
        f.write_str(text)
    } else {
        write_chars(text, f)
    }
}

// Whether a text has neither `~` nor `/`, so that it is its own token.
fn is_plain(text: &[u8]) -> bool
    ensures { OnTrue result (token text.now ≡ text.now) }
{
    for &byte in text {
        if byte == b'~' || byte == b'/' {
            return false;
        }
    }
    true
}

// Writes the token of a text character by character.
fn write_chars<W: fmt::Write>(text: &str, f: &mut fmt::Formatter<W>) -> fmt::Result
    ensures { WritesOnOk W.write_str_gives f.old result (token text.now) f.new }
{
    for c in text.chars() {
        write_token_char(c, f)?;
    }
    Ok(())
}

// Writes a character of a text as it stands in a token.
#[tactic(auto, using(crate::proofs::Pointers::plain_char))]
fn write_token_char<W: fmt::Write>(c: char, f: &mut fmt::Formatter<W>) -> fmt::Result
    ensures { WritesOnOk W.write_str_gives f.old result (token (encode_utf8 c)) f.new }
{
    match c {
        '~' => f.write_str("~0"),
        '/' => f.write_str("~1"),
        _ => f.write_char(c),
    }
}
