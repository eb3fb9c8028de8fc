//! Calls that need no memory, and some that do, while each request for memory fails.

use super::OrEnd;
use super::asked::{Row, said};
use super::paths::keys;
use super::rules::regex;
use garde::i18n::InvalidPhoneNumber;
use garde::rules::Rule;
use garde::rules::pattern::regex::Searcher;
use garde::rules::values::{Length, WithMessage};
use garde::{DefaultI18n, Error, Path, RuleError};
use garde_i18n::Datum;
use garde_problem::{Escaped, JsonPointer};
use std::alloc::{AllocError, Global};
use std::borrow::CowStr;
use std::fmt::Write;
use std::process::Abort;
use test_memory::Scarce;

/// A pattern of 64 bytes.
const LONG: &str = "^(one|two|three|four|five|six|seven|eight|nine|ten|eleven|more)$";

/// Texts, and whether that pattern matches them.
static SEARCHED: [(&str, bool); 3] = [("seven", true), ("zero", false), ("more", true)];

// Whether a searcher that was made before answers each search.
fn searches_without_memory(alloc: Global, pattern: &str) -> Result<bool, AllocError> {
    let code = regex(alloc, pattern)?;
    let searcher = code.searcher(alloc)?;
    let mut memory = Scarce::taken(alloc)?;
    let mut all = true;
    memory.begin();
    for (text, wanted) in &SEARCHED {
        all = all && searcher.is_match(alloc, text) == Ok(*wanted);
    }
    memory.end();
    Ok(all)
}

#[test]
fn a_searcher_searches_without_memory(rt: HostRuntime) {
    assert!(rt;
        searches_without_memory(rt.alloc(), LONG) == Ok(true)
            && searches_without_memory(rt.alloc(), "^(seven|more)$") == Ok(true)
    );
}

/// The texts that the default handler has without memory.
static STORED: [Row; 4] = [
    (Datum::AsciiInvalid, "not ascii"),
    (Datum::AlphanumericInvalid, "not alphanumeric"),
    (Datum::RequiredNotSet, "not set"),
    (
        Datum::PhoneNumberInvalid(InvalidPhoneNumber::Invalid),
        "not a valid phone number",
    ),
];

#[test]
fn a_reference_to_a_handler_copies_no_text(rt: HostRuntime) {
    let mut memory = Scarce::taken(rt.alloc()).or_end(&rt);
    let mut all = true;
    memory.begin();
    for (asked, wanted) in &STORED {
        let answer = said(rt.alloc(), &&DefaultI18n, *asked);
        all = all && matches!(&answer, Ok(text) if text.as_str() == *wanted);
    }
    memory.end();
    assert!(rt; all);
}

#[test]
fn a_message_is_out_of_memory_where_the_handler_is(rt: HostRuntime) {
    let rule = WithMessage(Length { min: 5, max: 9 }, "too short");
    let mut memory = Scarce::taken(rt.alloc()).or_end(&rt);
    memory.begin();
    let answer = rule.find(rt.alloc(), &"four", &DefaultI18n);
    memory.end();
    assert!(rt; matches!(answer, Err(RuleError::Memory)));
}

/// What a path of eight keys prints as a pointer, and escaped.
const PRINTED: &str = "/a~1\n/b/b/b/b/b/b/b a/\\n.b.b.b.b.b.b.b";

/// These keys.
static KEYS: [&str; 8] = ["a/\n", "b", "b", "b", "b", "b", "b", "b"];

// Prints a path as a pointer, and escaped.
fn print(alloc: Global, path: &Path, out: &mut String) -> Result<(), AllocError> {
    let (pointer, escaped) = (JsonPointer(alloc, path), Escaped(alloc, path));
    write!(out, "{pointer} {escaped}")
}

#[test]
fn a_path_of_eight_components_prints_without_memory(rt: HostRuntime) {
    let alloc = rt.alloc();
    let path = keys(alloc, &KEYS).or_end(&rt);
    let mut out = String::with_capacity(alloc, 64).or_end(&rt);
    let mut memory = Scarce::taken(alloc).or_end(&rt);
    memory.begin();
    let printed = print(alloc, &path, &mut out);
    memory.end();
    assert!(rt; printed.is_ok() && out.as_str() == PRINTED);
}

/// A message of 30 bytes and one of 31, and whether an error of it needs no memory.
static MESSAGES: [(&str, bool); 2] = [
    ("abcdefghijklmnopqrstuvwxyz0123", true),
    ("abcdefghijklmnopqrstuvwxyz01234", false),
];

// Whether an error of this message is made, borrowed and copied where there is no memory, or none of
// the three.
fn needs_no_memory(
    rt: &impl Abort,
    alloc: Global,
    message: &'static str,
    needs_none: bool,
) -> bool {
    let kept = Error::new(alloc, message).or_end(rt);
    let mut memory = Scarce::taken(alloc).or_end(rt);
    memory.begin();
    let made = Error::new(alloc, message).is_ok();
    let borrowed = RuleError::of(alloc, Ok(CowStr::Borrowed(message)));
    let copied = kept.clone().is_ok();
    memory.end();
    let found = matches!(&borrowed, RuleError::Fault(_));
    made == needs_none && found == needs_none && copied == needs_none
}

#[test]
fn a_message_of_thirty_bytes_takes_no_memory(rt: HostRuntime) {
    for (message, needs_none) in &MESSAGES {
        assert!(rt;
            needs_no_memory(&rt, rt.alloc(), message, *needs_none),
            "{message}"
        );
    }
}
