//! Where a text stops being JSON, and why.
ghost use Rattle.std.specs.Prelude.{◌≡◌, ◌⊎◌, IfOk, IfSome, IsUtf8, MatchOption, Some, None, IsSome, option_map};
ghost use Rattle.std.specs.Str.Lossy.{utf8_valid_len};
ghost use Rattle.json.specs.Json.{document};
ghost use Rattle.garde_tape.specs.Place.{place_at, IsPlaceIn};
ghost use Rattle.garde_tape.specs.Stop.{IsJson, IsTooLong};

use crate::place::{Place, place_of_byte};
use crate::scratch::Scratch;
use crate::syntax::Syntax;
use json::Error;
use std::alloc::{AllocError, Global};

/// Where a text stops being JSON, and why.
#[derive(Clone, Copy, Debug, Drop, PartialEq, Eq)]
pub struct Stop<'w> {
    /// The place of the first byte that no JSON text has behind those before it, or of the end of the
    /// text, if it ends too early.
    pub place: Place,
    /// Why, in words.
    pub why: &'w str,
}

/// Where the bytes stop being one JSON text (RFC 8259) nested no deeper than 128, and why; none where
/// they are one. Bytes that are not UTF-8 stop at the first that is not. Of a text of more than
/// 4,294,967,040 bytes, which `parse` does not read, there is none either.
///
/// Where UTF-8 ends is proved. At which byte a text in UTF-8 stops is only tested.
pub fn stop_of(alloc: Global, bytes: &[u8]) -> Result<Option<Stop<'static>>, AllocError>
    ensures json { IfOk result (λ stop. MatchOption stop (IsJson bytes.now ⊎ IsUtf8 bytes.now × IsTooLong bytes.now) (λ it. ¬ IsJson bytes.now)) }
    ensures place { IfOk result (λ stop. IfSome stop (λ it. IsPlaceIn bytes.now it.place)) }
    ensures utf8 { IfOk result (λ stop. ¬ IsUtf8 bytes.now
        → option_map (λ it. it.place) stop ≡ Some (place_at bytes.now (utf8_valid_len bytes.now))) }
{
    match str::from_utf8(bytes) {
        Ok(text) => stop_of_text(alloc, text),
        Err(error) => Ok(Some(stop_at(bytes, error.valid_up_to(), NOT_UTF8))),
    }
}

// The same of a text.
fn stop_of_text(alloc: Global, text: &str) -> Result<Option<Stop<'static>>, AllocError>
    ensures json { IfOk result (λ stop. MatchOption stop (IsSome (document text.now) ⊎ IsTooLong text.now) (λ it. document text.now ≡ None)) }
    ensures place { IfOk result (λ stop. IfSome stop (λ it. IsPlaceIn text.now it.place)) }
{
    let mut scratch = Scratch::new(alloc);
    match json::Tape::parse(text, &mut scratch.texts, Vec::new(&scratch.nodes)) {
        Ok(_) | Err(Error::TooLong) => Ok(None),
        Err(Error::Invalid) => Ok(Some(first_stop(text.as_bytes()))),
        Err(Error::OutOfMemory) => Err(AllocError),
        Err(Error::DuplicateKey) => unreachable!(),
    }
}

// Where a text stops that is no JSON.
fn first_stop(bytes: &[u8]) -> Stop<'static>
    ensures { IsPlaceIn bytes.now result.place }
{
    let mut syntax = Syntax::new();
    let offset = syntax.take_all(bytes);
    stop_at(bytes, offset, syntax.why(bytes.get(offset).copied()))
}

/// Where the bytes stop being UTF-8: at the first byte that is none. None where they are UTF-8.
pub fn stop_of_utf8(bytes: &[u8]) -> Option<Stop<'static>>
    ensures { MatchOption result (IsUtf8 bytes.now)
        (λ stop. ¬ IsUtf8 bytes.now × (stop.place ≡ place_at bytes.now (utf8_valid_len bytes.now))) }
{
    match str::from_utf8(bytes) {
        Ok(_) => None,
        Err(error) => Some(stop_at(bytes, error.valid_up_to(), NOT_UTF8)),
    }
}

fn stop_at(bytes: &[u8], offset: usize, why: &'static str) -> Stop<'static>
    ensures { result.place ≡ place_at bytes.now offset }
{
    Stop {
        place: place_of_byte(bytes, offset),
        why,
    }
}

const NOT_UTF8: &str = "not UTF-8";
