//! Rules of long texts, by their functions and as values.
use super::label::{Label, LabelText};
use crate::tests::OrEnd;
use crate::tests::rules::regex;
use crate::tests::told::tells;
use garde::fields::{Adapt, Pattern, Url};
use garde::rules::pattern::regex::Regex;
use garde::rules::values::MemoryRule;
use garde::rules::{pattern, url};
use garde::{DefaultI18n, RuleError};
use std::alloc::Global;
use std::process::Abort;

// The answer for a label that may be a URL, or have a code, by a function or a value.
fn answer(alloc: Global, way: usize, label: &Label, code: &Regex) -> Result<(), RuleError> {
    let h = &DefaultI18n;
    let text = &label.text;
    match way {
        0 => url::apply(alloc, text, (), h),
        1 => Url.find_in_memory(alloc, text, h),
        2 => Adapt(LabelText, Url).find_in_memory(alloc, label, h),
        3 => pattern::apply(alloc, text, (code,), h),
        4 => Pattern(code).find_in_memory(alloc, text, h),
        _ => Adapt(LabelText, Pattern(code)).find_in_memory(alloc, label, h),
    }
}

/// What is found of a text that is no URL.
const NO_URL: Option<&str> = Some("not a valid url: relative URL without a base");

/// What is found of a text that has no code.
const NO_CODE: Option<&str> = Some("does not match pattern /^[0-9]+$/");

/// A beginning, what comes again after it, and how often.
type Parts<'t> = (&'t str, &'t str, usize);

// Whether this is the answer for a label of these parts in each of these ways.
fn is_answered(
    rt: &impl Abort,
    alloc: Global,
    ways: [usize; 3],
    (front, again, times): Parts<'_>,
    wanted: Option<&str>,
) -> bool {
    let code = regex(alloc, "^[0-9]+$").or_end(rt);
    let rest = again.repeat(alloc, times).or_end(rt);
    let text = format!(in alloc; "{front}{rest}").or_end(rt);
    let label = Label { text };
    for way in ways {
        if !tells(answer(alloc, way, &label, &code), wanted) {
            return false;
        }
    }
    true
}

/// The parts of a label, and what is found where it has to be a URL, and where it has to have a code.
static ROWS: [(Parts<'static>, Option<&str>, Option<&str>); 4] = [
    (("https://example.com/", "path/", 819), None, NO_CODE),
    (("", "path/", 819), NO_URL, NO_CODE),
    (("", "01234567", 1024), NO_URL, None),
    (("x", "01234567", 1024), NO_URL, NO_CODE),
];

#[test]
fn links_of_four_and_codes_of_eight_kilobytes(rt: HostRuntime) {
    for (parts, link, number) in &ROWS {
        assert!(rt;
            is_answered(&rt, rt.alloc(), [0, 1, 2], *parts, *link)
                && is_answered(&rt, rt.alloc(), [3, 4, 5], *parts, *number),
            "{}{}",
            parts.0,
            parts.1
        );
    }
}
