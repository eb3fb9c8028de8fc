//! Walks of users, also of nests of lists, where memory runs out.

use super::reports::{has, report_of};
use super::told::{reads, shows};
use super::user::User;
use garde::{
    Component, DefaultI18n, FirstError, IntoValidError, Report, Trail, Unvalidated, Valid,
    Validate, ValidateError,
};
use std::alloc::{AllocError, Global};
use test_memory::{Met, Scarce};

/// One user of this name.
pub fn user(alloc: Global, name: &str) -> Result<User, AllocError> {
    Ok(User {
        username: String::from_str(alloc, name)?,
    })
}

/// What a report has before a walk.
const OLD: &[&str] = &["old"];

/// What is found of a user.
const FOUND: &[&str] = &["not ascii", "length is lower than 3"];

/// Both, one after the other.
const FAULTS: &[&str] = &["old", "not ascii", "length is lower than 3"];

// Whether a report has the first of the faults, and after it none or some of the others in turn.
fn begins(report: &Report) -> bool {
    has(report, OLD) || has(report, &["old", "not ascii"]) || has(report, FAULTS)
}

// Whether the trail stands where it stood, so that a walk with ample memory reports each fault at its place.
fn stands<'a>(users: &'a Vec<Option<User>>, trail: &mut Trail<'a>) -> Result<bool, AllocError> {
    let alloc = trail.alloc();
    let mut again = Report::new(alloc);
    users.validate_into(&(), trail, &mut again, &DefaultI18n)?;
    let text = "users[0].username: not ascii\nusers[0].username: length is lower than 3\n";
    let same_place = reads(alloc, &again, text)?;
    Ok(trail.depth() == 1 && has(&again, FOUND) && same_place)
}

// What a walk of users into a report that has a fault comes to.
fn walk(
    alloc: Global,
    memory: &mut Scarce,
    users: &Vec<Option<User>>,
    report: &mut Report,
) -> Result<Met, AllocError> {
    let mut trail = Trail::new(alloc);
    trail.push(Component::key("users"))?;
    memory.begin();
    let answer = users.validate_into(&(), &mut trail, report, &DefaultI18n);
    memory.end();
    let met = match answer {
        Ok(()) => Met::Ample.when(has(report, FAULTS)),
        Err(AllocError) => Met::Want.when(begins(report)),
    };
    Ok(met.when(stands(users, &mut trail)?))
}

// A list of one user with faults.
fn one_wrong(alloc: Global) -> Result<Vec<Option<User>>, AllocError> {
    one(alloc, Some(user(alloc, "é")?))
}

/// A walk of users into a report that has a fault.
pub fn on_users(alloc: Global, memory: &mut Scarce) -> Result<Met, AllocError> {
    let users = one_wrong(alloc)?;
    let mut report = report_of(alloc, "a", OLD)?;
    walk(alloc, memory, &users, &mut report)
}

/// Lists in lists, four deep.
pub type Four<T> = Vec<Vec<Vec<Vec<T>>>>;

/// The list of one value.
pub fn one<T: Drop>(alloc: Global, value: T) -> Result<Vec<T>, AllocError> {
    let mut list = Vec::new(alloc);
    match list.push(value) {
        Ok(()) => Ok(list),
        Err(_) => Err(AllocError),
    }
}

/// A value in lists, four deep.
pub fn four<T: Drop>(alloc: Global, value: T) -> Result<Four<T>, AllocError> {
    one(alloc, one(alloc, one(alloc, one(alloc, value)?)?)?)
}

/// A user of this name in twelve lists, one in the other.
pub fn twelve(alloc: Global, name: &str) -> Result<Four<Four<Four<User>>>, AllocError> {
    four(alloc, four(alloc, four(alloc, user(alloc, name)?)?)?)
}

/// What is reported of a user in twelve lists.
const NESTED: &str = "[0][0][0][0][0][0][0][0][0][0][0][0].username: length is lower than 3\n";

/// A walk of twelve lists.
pub fn nest(alloc: Global, memory: &mut Scarce) -> Result<Met, AllocError> {
    let lists = twelve(alloc, "ab")?;
    let mut trail = Trail::new(alloc);
    memory.begin();
    let answer = lists.validate_on(&(), &mut trail, &DefaultI18n);
    memory.end();
    let stands = trail.depth() == 0;
    match answer {
        Err(ValidateError::Report(report)) => {
            let told = reads(alloc, &report, NESTED)? && trail.nodes() == 13;
            Ok(Met::Ample.when(stands && told))
        }
        Err(ValidateError::Memory) => Ok(Met::Want.when(stands)),
        Ok(()) => Ok(Met::Wrong),
    }
}

// What the answer of a walk to the first fault comes to, where the walk made so many nodes.
fn first_found(
    alloc: Global,
    answer: Result<(), FirstError>,
    nodes: usize,
) -> Result<Met, AllocError> {
    match answer {
        Err(FirstError::First(report)) => {
            let told = reads(alloc, &report, "users[0].username: not ascii\n")?;
            Ok(Met::Ample.when(told && nodes == 3))
        }
        Err(FirstError::Memory) => Ok(Met::Want),
        _ => Ok(Met::Wrong),
    }
}

// What a walk of users to the first fault comes to.
fn first_of(alloc: Global, memory: &mut Scarce, users: &Vec<User>) -> Result<Met, AllocError> {
    let mut trail = Trail::new(alloc);
    trail.push(Component::key("users"))?;
    memory.begin();
    let answer = users.validate_first_on(&(), 1, &mut trail, &DefaultI18n);
    memory.end();
    let met = first_found(alloc, answer, trail.nodes())?;
    Ok(met.when(trail.depth() == 1))
}

/// The first fault of two.
pub fn first(alloc: Global, memory: &mut Scarce) -> Result<Met, AllocError> {
    first_of(alloc, memory, &one(alloc, user(alloc, "é")?)?)
}

// What the answer comes to that should be the report of a user with faults.
fn refused(
    alloc: Global,
    answer: Result<Valid<Vec<Option<User>>>, IntoValidError<Vec<Option<User>>>>,
) -> Result<Met, AllocError> {
    match answer {
        Err(IntoValidError::Report(report)) => Ok(Met::Ample.when(has(&report, FOUND))),
        Err(IntoValidError::Memory(back)) => {
            let same = shows(alloc, &back, "[Some(User { username: \"é\" })]")?;
            Ok(Met::Want.when(same))
        }
        Ok(_) => Ok(Met::Wrong),
    }
}

/// A value that becomes a valid one.
pub fn typed(alloc: Global, memory: &mut Scarce) -> Result<Met, AllocError> {
    let users = Unvalidated::new(one_wrong(alloc)?);
    memory.begin();
    let answer = users.validate(alloc);
    memory.end();
    refused(alloc, answer)
}
