//! Values of the tests.

use crate::tests::OrEnd;
use garde_places::Place;
use garde_report::{Component, Error, Kind, Path, Report, RuleError, Select, Trail};
use std::alloc::Global;
use std::cmp::Ordering;
use std::hash::{DefaultHasher, Hash, Hasher};
use std::process::Abort;

/// The component of a word: an index behind `#`, a text of no kind behind `?`, and else a key.
fn component_of(word: &str) -> Component<'_> {
    if let Some(text) = word.strip_prefix('#') {
        return Component::text(Kind::Index, text);
    }
    match word.strip_prefix('?') {
        Some(text) => Component::text(Kind::None, text),
        None => Component::text(Kind::Key, word),
    }
}

/// The path of these words, each of which ends in `>`: `a>#0>?>` is the key `a`, the index 0, and a text of no
/// kind that is empty.
pub fn path_of(rt: &impl Abort, alloc: Global, words: &str) -> Path {
    let mut trail = Trail::new(alloc);
    for word in words.split_terminator('>') {
        trail.push(component_of(word)).or_end(rt);
    }
    trail.path().or_end(rt)
}

/// The path of one component of this kind and text.
pub fn path_of_one(rt: &impl Abort, alloc: Global, kind: Kind, text: &str) -> Path {
    let mut trail = Trail::new(alloc);
    trail.push(Component::text(kind, text)).or_end(rt);
    trail.path().or_end(rt)
}

/// The path of the indexes below this number, by joins.
pub fn path_to(rt: &impl Abort, alloc: Global, size: usize) -> Path {
    let mut path = Path::empty();
    for index in 0..size {
        path = path.join(alloc, index).or_end(rt);
    }
    path
}

/// Adds a fault with this message, at the path.
pub fn append(rt: &impl Abort, alloc: Global, report: &mut Report, path: Path, message: &str) {
    let error = Error::new(alloc, message).or_end(rt);
    report.append(path, error).or_end(rt)
}

/// A report of these faults: the path of each as `path_of` reads it, and its message.
pub fn report_of(rt: &impl Abort, alloc: Global, faults: &[(&str, &str)]) -> Report {
    let mut report = Report::new(alloc);
    for (words, message) in faults {
        append(rt, alloc, &mut report, path_of(rt, alloc, words), message);
    }
    report
}

/// Whether the errors that are selected have these messages.
pub fn have_messages(mut selected: Select<'_>, messages: &[&str]) -> bool {
    for message in messages {
        match selected.next() {
            Some(error) if error.message() == *message => {}
            _ => return false,
        }
    }
    selected.next().is_none()
}

/// A place for each token, one a line: from the line `first` on, and before the line `end`.
pub fn places_in_lines(rt: &impl Abort, alloc: Global, first: usize, end: usize) -> Vec<Place> {
    let mut places = Vec::new(alloc);
    for line in first..end {
        places.push(Place { line, column: 1 }).or_end(rt);
    }
    places
}

/// What a hasher gives of a value.
fn hash_of<T: Hash>(value: &T) -> u64 {
    let mut state = DefaultHasher::new();
    value.hash(&mut state);
    state.finish()
}

/// Whether two values are in this order, equal only where that is equality, and of one hash then.
pub fn are_in_order<T: Ord + Hash>(value: &T, other: &T, order: Ordering) -> bool {
    let same = order == Ordering::Equal;
    let is_hashed = !same || hash_of(value) == hash_of(other);
    is_hashed && value.cmp(other) == order && (value == other) == same
}

/// Whether what a rule found is a fault with this text, equal to its clone.
pub fn is_kept(rt: &impl Abort, found: RuleError, text: &str) -> bool {
    match found {
        RuleError::Fault(error) => {
            let clone = error.clone().or_end(rt);
            let is_equal = clone.cmp(&error) == Ordering::Equal && clone == error;
            is_equal && error.message() == text && clone.message() == text
        }
        RuleError::Memory => false,
    }
}
