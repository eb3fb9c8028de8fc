//! Valid values that are validated while each allocation fails.
use super::documents::document;
use super::user::User;
use super::walks::{Four, four, one};
use super::{OrEnd, user_and_none, user_of};
use garde::{DefaultI18n, Trail, Unvalidated, Validate, ValidateError};
use std::alloc::{AllocError, Global};
use std::process::Abort;
use test_memory::{Met, Scarce};

/// What the answer of a walk comes to, and that of whether the value is valid.
fn met(answer: Result<(), ValidateError>, valid: Result<bool, AllocError>) -> Met {
    match answer {
        Ok(()) => Met::Ample.when(valid == Ok(true)),
        Err(ValidateError::Memory) => Met::Want.when(valid == Err(AllocError)),
        Err(ValidateError::Report(_)) => Met::Wrong,
    }
}

/// What a walk on a new trail comes to while each allocation fails. Whether the value is valid is
/// answered alike.
fn starved<V: Validate<Context = ()>>(rt: &impl Abort, alloc: Global, value: &V) -> Met {
    let mut memory = Scarce::taken(alloc).or_end(rt);
    let mut trail = Trail::new(alloc);
    memory.begin();
    let answer = value.validate_on(&(), &mut trail, &DefaultI18n);
    let valid = value.is_valid(alloc, &());
    memory.end();
    met(answer, valid)
}

/// Whether a valid value is found to be valid while each allocation fails.
fn needs_nothing<V: Validate<Context = ()> + Drop>(
    rt: &impl Abort,
    alloc: Global,
    value: V,
) -> bool {
    starved(rt, alloc, &value) == Met::Ample
}

/// A user in seven lists.
fn seven(rt: &impl Abort, alloc: Global) -> Four<Vec<Vec<Vec<User>>>> {
    let two = one(alloc, one(alloc, user_of(rt, alloc, "test")).or_end(rt)).or_end(rt);
    four(alloc, one(alloc, two).or_end(rt)).or_end(rt)
}

// A list, a document of which nothing is asked but its tag, and a user in seven lists, which is
// eight components deep.
#[test]
fn shallow_valid_values_allocate_nothing(rt: HostRuntime) {
    let alloc = rt.alloc();
    let document = document(&rt, alloc, (false, false), Some("é"), "t-1");
    assert!(rt;
        needs_nothing(&rt, alloc, user_and_none(&rt, alloc, "test"))
            && needs_nothing(&rt, alloc, document)
            && needs_nothing(&rt, alloc, seven(&rt, alloc))
    );
}

// A user in eight lists, which is nine components deep, and a user with faults.
#[test]
fn the_ninth_component_may_need_memory(rt: HostRuntime) {
    let alloc = rt.alloc();
    let lists = four(alloc, user_of(&rt, alloc, "test")).or_end(&rt);
    let lists = four(alloc, lists).or_end(&rt);
    let users = user_and_none(&rt, alloc, "é");
    assert!(rt;
        starved(&rt, alloc, &lists) != Met::Wrong && starved(&rt, alloc, &users) == Met::Want
    );
}

#[test]
fn a_valid_state_allocates_nothing(rt: HostRuntime) {
    let users = Unvalidated::new(user_and_none(&rt, rt.alloc(), "test"));
    let mut memory = Scarce::taken(rt.alloc()).or_end(&rt);
    memory.begin();
    let answer = users.validate(rt.alloc());
    memory.end();
    assert!(rt; answer.is_ok());
}
