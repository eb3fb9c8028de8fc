//! Patterns, by the engine and by the rule. All tests that compile one stand in this crate: each crate that
//! drops one proves how, and compiles the engine.
use super::OrEnd;
use super::told::{reads, tells};
use garde::DefaultI18n;
use garde::rules::AsStr;
use garde::rules::pattern::regex::{PatternRefused, Regex};
use garde::rules::pattern::{self, Matcher, Pattern};
use std::alloc::Global;
use std::process::Abort;

/// Whether the pattern of this source keeps it, and matches in the text or not, as it is said.
fn is_found(rt: &impl Abort, alloc: Global, source: &str, text: &str, found: bool) -> bool {
    let pattern = Regex::new(alloc, source).or_end(rt);
    pattern.as_str() == source && pattern.is_match(alloc, text).or_end(rt) == found
}

/// A pattern, a text, and whether it is found there.
static FOUND: [(&str, &str, bool); 7] = [
    ("^[0-9]{5}$", "12345", true),
    ("^[0-9]{5}$", "123", false),
    ("^[0-9]{5}$", "123456", false),
    ("b+", "abbc", true),
    ("b+", "", false),
    ("", "", true),
    (r"^\w+$", "é", true),
];

#[test]
fn matches_anywhere_in_a_text(rt: HostRuntime) {
    for (source, text, found) in &FOUND {
        assert!(rt;
            is_found(&rt, rt.alloc(), source, text, *found),
            "{source}: {text}"
        );
    }
}

/// A source, and why it is rejected.
static REFUSED: [(&str, PatternRefused); 4] = [
    ("(", PatternRefused::Syntax),
    ("[z-a]", PatternRefused::Syntax),
    ("*", PatternRefused::Syntax),
    (r"(?:\pL{1000}){1000}", PatternRefused::Other),
];

#[test]
fn says_why_a_pattern_is_refused(rt: HostRuntime) {
    for (source, refused) in &REFUSED {
        assert!(rt;
            Regex::new(rt.alloc(), source).err() == Some(*refused),
            "/{source}/"
        );
    }
}

/// Whether this is found in a value that has to match the pattern of five digits.
fn digits_tell<T: Pattern>(alloc: Global, value: &T, fault: Option<&str>) -> bool {
    match Regex::new(alloc, "^[0-9]{5}$") {
        Ok(digits) => tells(
            pattern::apply(alloc, value, (&digits,), &DefaultI18n),
            fault,
        ),
        Err(_) => false,
    }
}

const NO_DIGITS: Option<&str> = Some("does not match pattern /^[0-9]{5}$/");

/// A text, and what is found in it.
static DIGITS: [(&str, Option<&str>); 3] = [("12345", None), ("123", NO_DIGITS), ("", NO_DIGITS)];

#[test]
fn asks_for_a_match(rt: HostRuntime) {
    for (text, fault) in &DIGITS {
        assert!(rt;
            digits_tell(rt.alloc(), text, *fault) && digits_tell(rt.alloc(), &Some(*text), *fault),
            "{text}"
        );
    }
    assert!(rt; digits_tell(rt.alloc(), &None::<&str>, None));
}

#[test]
fn refuses_an_open_group(rt: HostRuntime) {
    let alloc = rt.alloc();
    let syntax = PatternRefused::Syntax;
    let other = "the pattern is too big, or out of memory";
    assert!(rt;
        Regex::new(alloc, "(").err() == Some(PatternRefused::Syntax)
            && reads(alloc, &syntax, "the text is not a pattern") == Ok(true)
            && reads(alloc, &PatternRefused::Other, other) == Ok(true)
    );
}

/// Whether a matcher lends this source and matches a text or not, as it is said, by its traits alone.
fn is_match<M: AsStr + Matcher>(
    alloc: Global,
    matcher: &M,
    source: &str,
    text: &str,
    wanted: bool,
) -> bool {
    matcher.as_str() == source && matcher.is_match(alloc, text) == Ok(wanted)
}

#[test]
fn lends_its_source(rt: HostRuntime) {
    let source = r"^\w+$";
    let word = Regex::new(rt.alloc(), source).or_end(&rt);
    assert!(rt;
        is_match(rt.alloc(), &word, source, "é", true)
            && is_match(rt.alloc(), &word, source, "a b", false)
    );
}
