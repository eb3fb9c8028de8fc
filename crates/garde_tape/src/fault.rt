//! Why a text is no JSON value nested no deeper than 128, and where.
ghost use Rattle.std.specs.Prelude.{◌≡◌, ◌<◌, ◌^◌, IsSome, IsTrue};
ghost use Rattle.json.specs.Lex.{tokens};
ghost use Rattle.json.specs.Reads.{token_of};
ghost use Rattle.garde_tape.specs.Nesting.{most_nested, depth_behind};
ghost use Rattle.garde_tape.specs.Place.{place_at};
ghost use Rattle.garde_tape.specs.Refusals.{IsFaultIn, IsPlaceOfLone};

use crate::parse_error::ParseError;
use crate::place::place_of_byte;
use crate::surrogate::is_lone_between;
use crate::syntax::Syntax;
use json::{MAX_DEPTH, Reader, Scratch, Token};
use std::alloc::Global;

// How many arrays and objects are open behind a token.
fn depth_behind(token: Token<'_>, depth: usize) -> usize
    requires { depth < 2 ^ 32 }
    ensures { result ≡ depth_behind (token_of token.entry) depth }
{
    match token {
        Token::BeginArray | Token::BeginObject => depth + 1,
        Token::EndArray | Token::EndObject => depth.saturating_sub(1),
        _ => depth,
    }
}

// Where the first array or object opens that nests deeper than 128.
fn too_deep_at(reader: &mut Reader<'_>) -> Option<usize>
    ensures { IsSome result → 128 < most_nested 0 reader.old }
{
    let mut depth = 0;
    let mut offset = reader.offset();
    while let Some(token) = reader.next() {
        depth = depth_behind(token, depth);
        if depth > MAX_DEPTH {
            return Some(offset);
        }
        offset = reader.offset();
    }
    None
}

// Whether an array or object opens at this offset that nests deeper than 128. The answer is no, too,
// where there is no memory to read the text.
fn is_too_deep(alloc: Global, text: &str, offset: usize) -> bool
    ensures { IsTrue result → 128 < most_nested 0 (tokens text.now) }
{
    match Reader::new(text, &mut Scratch::new(alloc)) {
        Ok(mut reader) => too_deep_at(&mut reader) == Some(offset),
        Err(_) => false,
    }
}

// Whether a text stops at this offset since half a surrogate pair stands alone before it.
fn is_lone(syntax: &Syntax, text: &[u8], offset: usize) -> bool
    ensures { IsTrue result → IsPlaceOfLone text.now (place_at text.now offset) }
{
    let Some(byte) = text.get(offset) else {
        return false;
    };
    let Some(behind) = syntax.half(*byte) else {
        return false;
    };
    is_lone_between(text, offset.saturating_sub(behind), offset)
}

// Why a text is no JSON value, and where. It is read once more, or twice: only such a text pays for that.
#[cold]
pub(crate) fn fault_of(alloc: Global, text: &str) -> ParseError
    ensures { IsFaultIn text.now result }
{
    let bytes = text.as_bytes();
    let mut syntax = Syntax::new();
    let offset = syntax.take_all(bytes);
    let place = place_of_byte(bytes, offset);
    if is_too_deep(alloc, text, offset) {
        ParseError::TooDeep(place)
    } else if is_lone(&syntax, bytes, offset) {
        ParseError::LoneSurrogate(place)
    } else {
        ParseError::NotJson(place)
    }
}
