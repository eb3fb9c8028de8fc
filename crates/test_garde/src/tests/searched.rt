//! Several searches by one searcher.
use super::OrEnd;
use garde::rules::pattern::regex::{Regex, Searcher};
use std::alloc::Global;
use std::process::Abort;

/// A text of a hundred bytes and more, with the match of `b+c$` at its end.
const LONG: &str =
    "abbc abbc abbc abbc abbc abbc abbc abbc abbc abbc abbc abbc abbc abbc abbc abbc abbc abbc abbc abbc abbbbc";

/// How many of these texts, from the first on, a searcher answers as it is said beside them.
fn answered(
    rt: &impl Abort,
    alloc: Global,
    searcher: &Searcher<'_>,
    rows: &[(&str, bool)],
) -> usize {
    for (row, (text, found)) in rows.iter().enumerate() {
        if searcher.is_match(alloc, text).or_end(rt) != *found {
            return row;
        }
    }
    rows.len()
}

/// Texts, and whether the pattern `b+c$` is found there.
static IN_TURN: [(&str, bool); 5] = [
    ("abbc", true),
    ("bca", false),
    ("", false),
    (LONG, true),
    ("abbc", true),
];

#[test]
fn searches_again_by_one_searcher(rt: HostRuntime) {
    let pattern = Regex::new(rt.alloc(), "b+c$").or_end(&rt);
    let searcher = pattern.searcher(rt.alloc()).or_end(&rt);
    assert!(rt; searcher.as_str() == "b+c$" && answered(&rt, rt.alloc(), &searcher, &IN_TURN) == 5);
}
