//! Ample memory: what is long, deep or many gets the answers of what is small.

use crate::tests::report::samples::{append, is_kept, path_of_one, path_to};
use crate::tests::report::written::is_read_back;
use crate::tests::{OrEnd, is_text};
use garde_report::rc_list::List;
use garde_report::{Component, Error, Kind, Path, PathIter, Report, RuleError, Trail};
use std::alloc::Global;
use std::borrow::CowStr;
use std::fmt::Display;
use std::process::Abort;

static SIZES: [usize; 6] = [0, 1, 8, 9, 12, 1000];

/// A text of 120 bytes that is there as long as the program is.
const LONG: &str =
    "abcdefghijklmnopqrstuvwxyz0123abcdefghijklmnopqrstuvwxyz0123abcdefghijklmnopqrstuvwxyz0123abcdefghijklmnopqrstuvwxyz0123";

// How many items stand before the last one of a list of so many.
fn items_before(rt: &impl Abort, alloc: Global, size: usize) -> Option<usize> {
    let mut list = List::new();
    for index in 0..size {
        list = list.append(alloc, index).or_end(rt);
    }
    match list.before().or_end(rt) {
        Some(before) => Some(before.len()),
        None => None,
    }
}

// How many components a path has without its last.
fn above(rt: &impl Abort, path: &Path) -> Option<usize> {
    match path.parent().or_end(rt) {
        Some(parent) => Some(parent.len()),
        None => None,
    }
}

// How many components a walk gives.
fn walked(walk: PathIter<'_>) -> usize {
    let mut count = 0usize;
    for _ in walk {
        count = count.wrapping_add(1);
    }
    count
}

// Whether a path of so many components has as many without its last as it is said, and its clone has all.
fn is_path_cut(rt: &impl Abort, alloc: Global, size: usize, wanted: Option<usize>) -> bool {
    let path = path_to(rt, alloc, size);
    above(rt, &path) == wanted && walked(path.clone().or_end(rt).iter(alloc).or_end(rt)) == size
}

// Whether a fault at the end of a way of so many components is the only one of a report, and stands so
// deep, and the trail has made so many nodes.
fn is_walked(rt: &impl Abort, alloc: Global, size: usize) -> bool {
    let mut report = Report::new(alloc);
    let mut trail = Trail::new(alloc);
    for index in 0..size {
        trail.push(Component::index(index)).or_end(rt);
    }
    let fault = RuleError::of(alloc, Ok(CowStr::Borrowed(LONG)));
    trail.put(&mut report, Err(fault)).or_end(rt);
    let is_deep = trail.nodes() == size && trail.depth() == size && report.len() == 1;
    match report.iter().next() {
        Some(fault) => is_deep && fault.0.len() == size && fault.1.message() == LONG,
        None => false,
    }
}

#[test]
fn lists_paths_and_ways_of_each_size(rt: HostRuntime) {
    for size in &SIZES {
        let above = size.checked_sub(1);
        assert!(rt;
            items_before(&rt, rt.alloc(), *size) == above
                && is_path_cut(&rt, rt.alloc(), *size, above)
                && is_walked(&rt, rt.alloc(), *size),
            "of {size}"
        );
    }
}

// Whether the path of a component has it, and no other.
fn is_component_kept(rt: &impl Abort, alloc: Global, kind: Kind, text: &str) -> bool {
    let path = path_of_one(rt, alloc, kind, text);
    let mut parts = path.iter(alloc).or_end(rt);
    parts.len() == 1 && parts.next() == Some((kind, text))
}

// Whether a letter so many times is kept by a component of each kind, and by a message that is lent or
// handed over.
fn is_text_kept(rt: &impl Abort, alloc: Global, letter: &str, times: usize) -> bool {
    let text = letter.repeat(alloc, times).or_end(rt);
    let lent = text.as_str();
    is_component_kept(rt, alloc, Kind::Key, lent)
        && is_component_kept(rt, alloc, Kind::None, lent)
        && is_component_kept(rt, alloc, Kind::Index, lent)
        && is_kept(
            rt,
            RuleError::Fault(Error::new(alloc, lent).or_end(rt)),
            lent,
        )
        && is_kept(
            rt,
            RuleError::of(
                alloc,
                Ok(CowStr::Owned(String::from_str(alloc, lent).or_end(rt))),
            ),
            lent,
        )
}

static TIMES: [usize; 10] = [0, 1, 11, 15, 16, 22, 23, 30, 31, 1000];

// Asserts that a letter is kept each of these times.
fn assert_kept(rt: &impl Abort, alloc: Global, letter: &str) {
    for times in &TIMES {
        assert!(rt; is_text_kept(rt, alloc, letter, *times), "{times} times");
    }
}

#[test]
fn texts_of_each_length_are_kept(rt: HostRuntime) {
    assert_kept(&rt, rt.alloc(), "a");
    assert_kept(&rt, rt.alloc(), "\u{0}");
    assert_kept(&rt, rt.alloc(), "\u{1f}");
    assert_kept(&rt, rt.alloc(), "\u{e9}");
}

// So many faults with this key and message, each so many components deep.
fn faults(rt: &impl Abort, alloc: Global, count: usize, depth: usize, text: &str) -> Report {
    let path = path_to(rt, alloc, depth).join(alloc, text).or_end(rt);
    let mut report = Report::new(alloc);
    for _ in 0..count {
        append(rt, alloc, &mut report, path.clone().or_end(rt), text);
    }
    report
}

// Whether the report of so many faults is cloned, and read back.
fn are_read_back(rt: &impl Abort, alloc: Global, count: usize, depth: usize, text: &str) -> bool {
    let report = faults(rt, alloc, count, depth, text);
    report.clone().or_end(rt).iter().eq(report.iter()) && is_read_back(rt, alloc, &report)
}

/// How many faults a report has, and how many components deep each of them is.
static REPORTS: [(usize, usize); 6] = [(0, 0), (1, 0), (1, 12), (1, 1000), (100, 2), (1000, 2)];

#[test]
fn reports_of_each_size_are_read_back(rt: HostRuntime) {
    for (count, depth) in &REPORTS {
        assert!(rt;
            are_read_back(&rt, rt.alloc(), *count, *depth, LONG),
            "{count}, {depth} deep"
        );
    }
}

#[test]
fn each_control_character_is_read_back(rt: HostRuntime) {
    for code in 0..0xa0u8 {
        let mut room = [0; 4];
        let text = char::from(code).encode_utf8(&mut room);
        assert!(rt; are_read_back(&rt, rt.alloc(), 1, 1, text), "{code}");
    }
}

// Whether a value prints as this text, whatever the width.
fn is_unpadded<T: Display>(alloc: Global, value: &T, text: &str) -> bool {
    is_text(format!(in alloc; "{value:>40}"), text)
}

// The width is that of nothing: what has parts prints as if none were asked for.
#[test]
fn a_width_pads_nothing(rt: HostRuntime) {
    let alloc = rt.alloc();
    let report = faults(&rt, alloc, 2, 1, "x");
    assert!(rt;
        is_unpadded(alloc, &report, "[0].x: x\n[0].x: x\n") && Kind::default() == Kind::None
    );
    for (path, error) in report.iter() {
        assert!(rt; is_unpadded(alloc, path, "[0].x") && is_unpadded(alloc, error, "x"));
    }
}
