//! Lists and paths, also where memory runs out, and what paths print.

use super::OrEnd;
use super::told::{reads, shows};
use garde::Path;
use garde::error::{Kind, PathComponentKind, PathIter};
use garde::rc_list::{JoinError, List};
use std::alloc::{AllocError, Global};
use std::process::Abort;
use test_memory::{Met, Scarce};

/// The list with one item more.
pub fn longer<T: Drop>(alloc: Global, list: &List<T>, item: T) -> Result<List<T>, AllocError> {
    match list.append(alloc, item) {
        Ok(longer) => Ok(longer),
        Err(_) => Err(AllocError),
    }
}

// Whether a list has these letters and no others.
fn has(list: &List<char>, letters: &[char]) -> bool {
    list.iter().eq(letters)
}

/// A list with one item more.
pub fn append(alloc: Global, memory: &mut Scarce) -> Result<Met, AllocError> {
    let mut list = List::new();
    for letter in ['a', 'c', 'd'] {
        list = longer(alloc, &list, letter)?;
    }
    memory.begin();
    let answer = list.append(alloc, 'e');
    memory.end();
    let stands = has(&list, &['d', 'c', 'a']);
    Ok(match answer {
        Ok(longer) if stands && has(&longer, &['e', 'd', 'c', 'a']) => Met::Ample,
        Err(JoinError::Memory) if stands => Met::Want,
        _ => Met::Wrong,
    })
}

/// The path with one component more.
pub fn beneath<K: PathComponentKind + Drop>(
    alloc: Global,
    path: &Path,
    component: K,
) -> Result<Path, AllocError> {
    match path.join(alloc, component) {
        Ok(longer) => Ok(longer),
        Err(_) => Err(AllocError),
    }
}

/// The path of these keys.
pub fn keys(alloc: Global, texts: &[&str]) -> Result<Path, AllocError> {
    let mut path = Path::empty();
    for text in texts {
        path = beneath(alloc, &path, *text)?;
    }
    Ok(path)
}

/// The path of so many indexes.
pub fn indexes(alloc: Global, count: usize) -> Result<Path, AllocError> {
    let mut path = Path::empty();
    for index in 0..count {
        path = beneath(alloc, &path, index)?;
    }
    Ok(path)
}

// Whether this is the path of so many indexes.
fn are_indexes(alloc: Global, path: &Path, count: usize) -> Result<bool, AllocError> {
    Ok(*path == indexes(alloc, count)?)
}

// What the answer comes to that should be the path of three indexes.
fn joined(alloc: Global, answer: Result<Path, JoinError>) -> Result<Met, AllocError> {
    match answer {
        Ok(longer) => Ok(Met::Ample.when(are_indexes(alloc, &longer, 3)?)),
        Err(JoinError::Memory) => Ok(Met::Want),
        Err(_) => Ok(Met::Wrong),
    }
}

/// A path with one component more.
pub fn join(alloc: Global, memory: &mut Scarce) -> Result<Met, AllocError> {
    let path = indexes(alloc, 2)?;
    memory.begin();
    let answer = path.join(alloc, 2usize);
    memory.end();
    match are_indexes(alloc, &path, 2) {
        Ok(true) => joined(alloc, answer),
        Ok(false) => Ok(Met::Wrong),
        Err(AllocError) => Err(AllocError),
    }
}

// What a walk of a path of nine components comes to.
fn walked(alloc: Global, memory: &mut Scarce, path: &Path) -> Met {
    memory.begin();
    let met = match path.iter(alloc) {
        Ok(items) => Met::Ample.when(items.len() == 9),
        Err(AllocError) => Met::Want,
    };
    memory.end();
    met
}

/// A walk of a path.
pub fn iter(alloc: Global, memory: &mut Scarce) -> Result<Met, AllocError> {
    let path = indexes(alloc, 9)?;
    let met = walked(alloc, memory, &path);
    Ok(met.when(are_indexes(alloc, &path, 9)?))
}

/// Keys, what their path prints, and what it prints for a programmer.
static KEYED: [(&[&str], &str, &str); 3] = [
    (
        &["a", "b", "c"],
        "a.b.c",
        "Path { components: [(Key, \"a\"), (Key, \"b\"), (Key, \"c\")] }",
    ),
    (
        &["array", "0", "c"],
        "array.0.c",
        "Path { components: [(Key, \"array\"), (Key, \"0\"), (Key, \"c\")] }",
    ),
    (&["0"], "0", "Path { components: [(Key, \"0\")] }"),
];

#[test]
fn a_key_that_is_a_number_is_a_key(rt: HostRuntime) {
    for (texts, text, shown) in &KEYED {
        let path = keys(rt.alloc(), texts).or_end(&rt);
        assert!(rt;
            path.len() == texts.len()
                && reads(rt.alloc(), &path, text) == Ok(true)
                && shows(rt.alloc(), &path, shown) == Ok(true),
            "{text}"
        );
    }
}

/// A component that a walk gives, or none.
type Given = Option<(Kind, &'static str)>;

/// How many components a path has, the four in front of its walk, and what its front and its back give
/// behind these and the four at the back. A walk of eight needs no memory, and one of nine does.
static WALKS: [(usize, &[&str; 4], Given, Given); 3] = [
    (8, &["7", "6", "5", "4"], None, None),
    (9, &["8", "7", "6", "5"], Some((Kind::Index, "4")), None),
    (
        10,
        &["9", "8", "7", "6"],
        Some((Kind::Index, "5")),
        Some((Kind::Index, "4")),
    ),
];

// Whether a walk gives one component from its front, and then one from its back.
fn gives_both(walk: &mut PathIter<'_>, front: &str, back: &str) -> bool {
    walk.next() == Some((Kind::Index, front)) && walk.next_back() == Some((Kind::Index, back))
}

// Whether a walk gives these by turns with the four at its back, then these two, and then no more.
fn gives(walk: &mut PathIter<'_>, fronts: &[&str; 4], (front, back): (Given, Given)) -> bool {
    gives_both(walk, fronts[0], "0")
        && gives_both(walk, fronts[1], "1")
        && gives_both(walk, fronts[2], "2")
        && gives_both(walk, fronts[3], "3")
        && walk.next() == front
        && walk.next_back() == back
        && walk.next().is_none()
}

// Whether the walk of a path of so many components gives these.
fn is_walked(
    rt: &impl Abort,
    alloc: Global,
    (size, fronts, front, back): &(usize, &[&str; 4], Given, Given),
) -> bool {
    let path = indexes(alloc, *size).or_end(rt);
    gives(&mut path.iter(alloc).or_end(rt), fronts, (*front, *back))
}

#[test]
fn a_long_walk_gives_both_ends_by_turns(rt: HostRuntime) {
    for row in &WALKS {
        assert!(rt; is_walked(&rt, rt.alloc(), row));
    }
}
