//! Tests of the lengths: each holds the answers on a table of values against texts that are written
//! out.
mod collections;
mod handlers;
mod options;
mod texts;
mod urls;

use super::{has_text, tells};
use garde_engines::OutOfBounds;
use garde_engines::length::simple;
use garde_i18n::DefaultI18n;

/// A text, its bounds, and the fault.
static BOUNDED: [(&str, usize, usize, Option<&str>); 5] = [
    ("abc", 5, 2, Some("length is lower than 5")),
    ("abcde", 5, 2, Some("length is greater than 2")),
    ("abcdef", 5, 2, Some("length is greater than 2")),
    ("ab", 3, 25, Some("length is lower than 3")),
    ("abc", 3, 3, None),
];

#[test]
fn asks_the_lower_bound_first(rt: HostRuntime) {
    for (text, min, max, fault) in &BOUNDED {
        let answer = simple::apply(rt.alloc(), text, (*min, *max), &DefaultI18n);
        assert!(rt; tells(answer, *fault), "{text}");
    }
    assert!(rt;
        has_text(
            &rt,
            rt.alloc(),
            &OutOfBounds::Lower,
            "below the lower bound"
        ) && has_text(
            &rt,
            rt.alloc(),
            &OutOfBounds::Upper,
            "above the upper bound"
        )
    );
}
