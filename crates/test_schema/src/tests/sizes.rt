//! Wide and deep bodies.

use super::OrEnd;
use super::long_text::Long;
use garde_tape::{Found, ParseError, Scratch, Tree, parse};
use std::alloc::Global;

const WIDTH: usize = 100_000;

// An object of `WIDTH` members behind a first one, the names of which are `k0` and so on.
static WIDE: Long = Long::Numbered("{\"z\":null", (0, WIDTH), (",\"k", "\":"), "}");

// The last member of an object of `WIDTH` members behind the first, and whether one more is left.
fn last<'a>(tree: &Tree<'_, 'a>) -> Option<(&'a str, Option<u64>, bool)> {
    let mut members = tree.members()?;
    for _ in 0..WIDTH {
        let _before = members.next();
    }
    let (name, last) = members.next()?;
    Some((name, last.as_u64(), members.next().is_some()))
}

// Whether an object of many members has all of them.
fn has_all(alloc: Global, text: &str) -> bool {
    let mut scratch = Scratch::new(alloc);
    match parse(alloc, text, &mut scratch) {
        Ok(tape) => {
            let tree = Tree::root(&tape);
            last(&tree) == Some(("k99999", Some(99_999), false))
                && matches!(tree.find("k99999"), Found::Once(_))
                && matches!(tree.find("k100000"), Found::Missing)
        }
        Err(_) => false,
    }
}

#[test]
fn reads_an_object_of_many_members(rt: HostRuntime) {
    let text = WIDE.text(rt.alloc()).or_end(&rt);
    assert!(rt; has_all(rt.alloc(), text.as_str()));
}

// Nests of lists, and the line and the column where each is too deep, if it is.
static NESTS: [(Long, Option<(usize, usize)>); 2] = [
    (Long::Repeated("", (128, "["), "", (128, "]"), ""), None),
    (
        Long::Repeated("", (129, "["), "", (129, "]"), ""),
        Some((1, 129)),
    ),
];

// Whether a text is too deep there, or else is JSON.
fn stops(alloc: Global, text: &str, place: Option<(usize, usize)>) -> bool {
    let mut scratch = Scratch::new(alloc);
    match parse(alloc, text, &mut scratch) {
        Ok(_) => place.is_none(),
        Err(ParseError::TooDeep(at)) => place == Some((at.line, at.column)),
        Err(_) => false,
    }
}

#[test]
fn refuses_a_nest_that_is_too_deep(rt: HostRuntime) {
    for (nest, place) in &NESTS {
        let text = nest.text(rt.alloc()).or_end(&rt);
        assert!(rt; stops(rt.alloc(), text.as_str(), *place));
    }
}
