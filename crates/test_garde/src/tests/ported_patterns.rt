//! Types of `example_ported` whose texts are asked for compiled patterns.
use super::told::tells_all;
use super::{OrEnd, text_of, texts_of};
use example_ported::visitor::{Badge, BadgePatterns, Desk, Patterns, Visitor};
use garde::Validate;
use garde::rules::pattern::regex::Regex;
use std::alloc::Global;
use std::process::Abort;

/// A compiled pattern.
fn pattern(rt: &impl Abort, alloc: Global, source: &str) -> Regex {
    Regex::new(alloc, source).or_end(rt)
}

/// Whether this is reported for a visitor of this mail and phone.
fn is_told_of_a_visitor(rt: &impl Abort, alloc: Global, from: [&str; 2], told: &str) -> bool {
    let patterns = Patterns {
        mail: pattern(rt, alloc, "^[^@]+@[^@]+$"),
        phone: pattern(rt, alloc, "^[0-9]+$"),
    };
    let visitor = Visitor {
        mail: text_of(rt, alloc, from[0]),
        phone: Some(text_of(rt, alloc, from[1])),
    };
    tells_all(alloc, visitor.validate_with(alloc, &patterns), told)
}

/// Whether this is reported for a badge of this number and color, which is given on a floor.
fn is_told_of_a_badge(
    rt: &impl Abort,
    alloc: Global,
    from: [&str; 2],
    floor: u8,
    told: &str,
) -> bool {
    let patterns = BadgePatterns::new(alloc).or_end(rt);
    let badge = Badge {
        number: text_of(rt, alloc, from[0]),
        colors: texts_of(rt, alloc, &[from[1]]),
        desk: Desk { floor },
    };
    tells_all(alloc, badge.validate_with(alloc, &patterns), told)
}

#[test]
fn compiled_patterns(rt: HostRuntime) {
    let badge =
        "number: does not match pattern /^[A-Z]{2}[0-9]+$/\ncolors[0]: does not match pattern /^[a-z]+$/\ndesk.floor: greater than 9\n";
    let visitor =
        "mail: not ascii\nmail: does not match pattern /^[^@]+@[^@]+$/\nphone: does not match pattern /^[0-9]+$/\n";
    assert!(rt;
        is_told_of_a_badge(&rt, rt.alloc(), ["AB1", "red"], 9, "")
            && is_told_of_a_badge(&rt, rt.alloc(), ["AB", "Red"], 10, badge)
            && is_told_of_a_visitor(&rt, rt.alloc(), ["a@b", "123"], "")
            && is_told_of_a_visitor(&rt, rt.alloc(), ["é", "a"], visitor)
    );
}
