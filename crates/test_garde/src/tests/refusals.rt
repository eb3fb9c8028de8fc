//! Calls whose allocations fail in turn: a failed allocation gives the error for out of memory, or
//! the answer of ample memory, and the objects stand.

use super::{paths, reports, rules, texts, walks};
use std::alloc::{AllocError, Global};
use std::test::Fail;
use test_memory::{Calls, Met, Scarce};

/// Calls with the objects that they are made on.
#[derive(Clone, Copy)]
enum Scenario {
    Append,
    Join,
    Iter,
    ReportAppend,
    ReportClone,
    ToJson,
    FromJson,
    FromText,
    Texts,
    Rules,
    Compile,
    OnUsers,
    Nest,
    First,
    Typed,
}

impl Calls for Scenario {
    fn meet(&self, alloc: Global, memory: &mut Scarce) -> Result<Met, AllocError> {
        match self {
            Scenario::Append => paths::append(alloc, memory),
            Scenario::Join => paths::join(alloc, memory),
            Scenario::Iter => paths::iter(alloc, memory),
            Scenario::ReportAppend => reports::append(alloc, memory),
            Scenario::ReportClone => reports::copy(alloc, memory),
            Scenario::ToJson => reports::write(alloc, memory),
            Scenario::FromJson => reports::read(alloc, memory),
            Scenario::FromText => reports::read_text(alloc, memory),
            Scenario::Texts => texts::texts(alloc, memory),
            Scenario::Rules => rules::rules(alloc, memory),
            Scenario::Compile => rules::compile(alloc, memory),
            Scenario::OnUsers => walks::on_users(alloc, memory),
            Scenario::Nest => walks::nest(alloc, memory),
            Scenario::First => walks::first(alloc, memory),
            Scenario::Typed => walks::typed(alloc, memory),
        }
    }
}

/// All scenarios.
static ALL: [(&str, Scenario); 15] = [
    ("append", Scenario::Append),
    ("join", Scenario::Join),
    ("iter", Scenario::Iter),
    ("report append", Scenario::ReportAppend),
    ("report clone", Scenario::ReportClone),
    ("to json", Scenario::ToJson),
    ("from json", Scenario::FromJson),
    ("from text", Scenario::FromText),
    ("texts", Scenario::Texts),
    ("rules", Scenario::Rules),
    ("compile", Scenario::Compile),
    ("on users", Scenario::OnUsers),
    ("nest", Scenario::Nest),
    ("first", Scenario::First),
    ("typed", Scenario::Typed),
];

// Each scenario ends well under budgets of memory that grow from nothing.
#[test]
fn each_budget_of_memory(rt: HostRuntime) -> Result<(), Fail> {
    for (name, calls) in &ALL {
        let mut memory = Scarce::taken(rt.alloc())?;
        assert!(rt;
            calls.in_turn(rt.alloc(), &mut memory)? == Met::Ample,
            "at {name}"
        );
    }
    Ok(())
}

// Makes the calls of a scenario once.
fn once(alloc: Global, calls: Scenario) -> Result<(), Fail> {
    Ok(calls.once(alloc)?.ample()?)
}

#[test]
fn list_append(rt: HostRuntime) -> Result<(), Fail> {
    once(rt.alloc(), Scenario::Append)
}

#[test]
fn path_join(rt: HostRuntime) -> Result<(), Fail> {
    once(rt.alloc(), Scenario::Join)
}

#[test]
fn path_iter(rt: HostRuntime) -> Result<(), Fail> {
    once(rt.alloc(), Scenario::Iter)
}

#[test]
fn report_append(rt: HostRuntime) -> Result<(), Fail> {
    once(rt.alloc(), Scenario::ReportAppend)
}

#[test]
fn report_clone(rt: HostRuntime) -> Result<(), Fail> {
    once(rt.alloc(), Scenario::ReportClone)
}

#[test]
fn report_to_json(rt: HostRuntime) -> Result<(), Fail> {
    once(rt.alloc(), Scenario::ToJson)
}

#[test]
fn report_from_json(rt: HostRuntime) -> Result<(), Fail> {
    once(rt.alloc(), Scenario::FromJson)
}

#[test]
fn report_from_text(rt: HostRuntime) -> Result<(), Fail> {
    once(rt.alloc(), Scenario::FromText)
}

#[test]
fn handler_texts(rt: HostRuntime) -> Result<(), Fail> {
    once(rt.alloc(), Scenario::Texts)
}

#[test]
fn rules_apply(rt: HostRuntime) -> Result<(), Fail> {
    once(rt.alloc(), Scenario::Rules)
}

#[test]
fn regex_new(rt: HostRuntime) -> Result<(), Fail> {
    once(rt.alloc(), Scenario::Compile)
}

#[test]
fn walk_on_users(rt: HostRuntime) -> Result<(), Fail> {
    once(rt.alloc(), Scenario::OnUsers)
}

#[test]
fn nest_of_twelve(rt: HostRuntime) -> Result<(), Fail> {
    once(rt.alloc(), Scenario::Nest)
}

#[test]
fn the_first_fault(rt: HostRuntime) -> Result<(), Fail> {
    once(rt.alloc(), Scenario::First)
}

#[test]
fn unvalidated(rt: HostRuntime) -> Result<(), Fail> {
    once(rt.alloc(), Scenario::Typed)
}
