//! What is made is given back: each kind of object is made and dropped many times, while no more
//! than 32 KiB are left. What leaks a byte of each object runs out of memory.
use super::made::{
    LONG, document, errors, handlers, invalid, lists, paths, patterns, refused, reports, trees,
    valid, ways,
};
use example_types::document::Document;
use std::alloc::{AllocError, Global};
use test_memory::Hog;

/// The bytes that are left while objects are made and dropped.
const BUDGET: usize = 1 << 15;

/// How often each object is made: a piece of memory has 16 bytes at least, so what keeps one of each
/// object would take more than the budget.
const TIMES: usize = 4000;

/// What is made and dropped.
#[derive(Clone, Copy)]
enum Made {
    Lists,
    Paths,
    Ways,
    Reports,
    Errors,
    Trees,
    Handlers,
    Patterns,
    Valid,
    Invalid,
    Refused,
}

/// Each kind, with its name.
static KINDS: [(&str, Made); 11] = [
    ("lists", Made::Lists),
    ("paths", Made::Paths),
    ("ways", Made::Ways),
    ("reports", Made::Reports),
    ("errors", Made::Errors),
    ("trees", Made::Trees),
    ("handlers", Made::Handlers),
    ("patterns", Made::Patterns),
    ("valid", Made::Valid),
    ("invalid", Made::Invalid),
    ("refused", Made::Refused),
];

// Makes objects of a kind, and drops them.
fn make(alloc: Global, kind: Made, crowd: &Vec<Document>) -> Result<(), AllocError> {
    match kind {
        Made::Lists => lists(alloc),
        Made::Paths => paths(alloc),
        Made::Ways => ways(alloc),
        Made::Reports => reports(alloc),
        Made::Errors => errors(alloc),
        Made::Trees => trees(alloc),
        Made::Handlers => handlers(alloc),
        Made::Patterns => patterns(alloc),
        Made::Valid => valid(alloc),
        Made::Invalid => invalid(alloc),
        Made::Refused => refused(alloc, crowd),
    }
}

// How often objects of a kind could be made in turn.
fn times_made(alloc: Global, kind: Made, crowd: &Vec<Document>) -> usize {
    for time in 0..TIMES {
        if make(alloc, kind, crowd).is_err() {
            return time;
        }
    }
    TIMES
}

// How often objects of a kind could be made in turn while little memory is left. There are 300
// documents, each with two faults.
fn times_given_back(alloc: Global, kind: Made) -> Result<usize, AllocError> {
    let mut crowd = Vec::new(alloc);
    for _ in 0..300 {
        crowd.push(document(alloc, None, LONG)?)?;
    }
    let mut hog = Hog::new(alloc)?;
    hog.leave(BUDGET);
    let times = times_made(alloc, kind, &crowd);
    hog.release();
    Ok(times)
}

#[test]
fn what_is_made_is_given_back(rt: HostRuntime) {
    for (name, kind) in &KINDS {
        assert!(rt; times_given_back(rt.alloc(), *kind) == Ok(TIMES), "{name}");
    }
}
