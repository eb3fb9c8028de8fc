//! Ways down and up, with the paths that are asked for and the nodes made so far.

use crate::tests::{OrEnd, has_text, is_at};
use garde_report::{Component, Error, Report, RuleError, Trail};
use std::alloc::Global;
use std::process::Abort;

/// A step on a way.
enum Step {
    Index(usize),
    Key(&'static str),
    Pop,
    Path(&'static str, usize),
}

/// Takes a step. Returns whether the path has its text then, and the trail so many nodes.
fn takes(rt: &impl Abort, trail: &mut Trail<'static>, step: &Step) -> bool {
    match step {
        Step::Index(index) => trail.push(Component::index(*index)).is_ok(),
        Step::Key(text) => trail.push(Component::key(text)).is_ok(),
        Step::Pop => {
            if trail.depth() > 0 {
                trail.pop();
            }
            true
        }
        Step::Path(text, nodes) => is_at(rt, trail, text) && trail.nodes() == *nodes,
    }
}

/// How many of these steps are taken before the first path or count that is another.
fn taken(rt: &impl Abort, alloc: Global, steps: &'static [Step]) -> usize {
    let mut trail = Trail::new(alloc);
    for (number, step) in steps.iter().enumerate() {
        if !takes(rt, &mut trail, step) {
            return number;
        }
    }
    steps.len()
}

/// A way on which two paths are asked for under one component.
static ONCE: [Step; 10] = [
    Step::Index(0),
    Step::Key("a"),
    Step::Path("[0].a", 2),
    Step::Path("[0].a", 2),
    Step::Pop,
    Step::Key("b"),
    Step::Path("[0].b", 3),
    Step::Pop,
    Step::Pop,
    Step::Path("", 3),
];

/// A way on which paths are asked for under one that was made.
static MISSING: [Step; 13] = [
    Step::Key("a"),
    Step::Index(0),
    Step::Path("a[0]", 2),
    Step::Pop,
    Step::Index(1),
    Step::Key("b"),
    Step::Path("a[1].b", 4),
    Step::Pop,
    Step::Pop,
    Step::Path("a", 4),
    Step::Pop,
    Step::Key("a"),
    Step::Path("a", 5),
];

/// A deep way, whose path has all its nodes.
static DEEP: [Step; 13] = [
    Step::Index(0),
    Step::Index(1),
    Step::Index(2),
    Step::Index(3),
    Step::Index(4),
    Step::Index(5),
    Step::Index(6),
    Step::Index(7),
    Step::Index(8),
    Step::Index(9),
    Step::Index(10),
    Step::Index(11),
    Step::Path("[0][1][2][3][4][5][6][7][8][9][10][11]", 12),
];

#[test]
fn a_path_is_made_once_and_goes_with_its_component(rt: HostRuntime) {
    assert!(rt;
        taken(&rt, rt.alloc(), &ONCE) == 10
            && taken(&rt, rt.alloc(), &MISSING) == 13
            && taken(&rt, rt.alloc(), &DEEP) == 13
    );
}

/// Puts the fault `weak`. Returns whether it was put.
fn puts_weak(rt: &impl Abort, trail: &mut Trail<'_>, report: &mut Report) -> bool {
    let alloc = trail.alloc();
    let weak = RuleError::Fault(Error::new(alloc, "weak").or_end(rt));
    trail.put(report, Err(weak)).is_ok()
}

/// Whether Ok passes, where no node was made.
fn passes(trail: &mut Trail<'_>, report: &mut Report) -> bool {
    trail.put(report, Ok(())).is_ok() && trail.nodes() == 0
}

/// Whether Ok puts nothing under a key, and makes no node, and then one fault and one `Memory` make
/// one line and one node there.
fn puts_a_fault(rt: &impl Abort, alloc: Global) -> bool {
    let mut report = Report::new(alloc);
    let mut trail = Trail::new(alloc);
    trail.push(Component::key("a")).is_ok()
        && passes(&mut trail, &mut report)
        && report.is_empty()
        && puts_weak(rt, &mut trail, &mut report)
        && trail.put(&mut report, Err(RuleError::Memory)).is_err()
        && trail.nodes() == 1
        && has_text(rt, alloc, &report, "a: weak\n")
}

/// Whether no fault is put under a key, which makes no path, where Ok passes.
fn is_full(rt: &impl Abort, trail: &mut Trail<'_>, report: &mut Report) -> bool {
    trail.push(Component::key("a")).is_ok()
        && !puts_weak(rt, trail, report)
        && passes(trail, report)
}

/// Whether a report of two faults, cut to one of them, is full for the trail that puts the next,
/// which makes no path, where Ok passes, and is not full once the limit of before is set again.
fn is_full_at_its_limit(rt: &impl Abort, alloc: Global) -> bool {
    let mut report = Report::new(alloc);
    let mut trail = Trail::new(alloc);
    let is_put = puts_weak(rt, &mut trail, &mut report) && puts_weak(rt, &mut trail, &mut report);
    report.truncate(1);
    let unlimited = trail.limit(1);
    let is_full = is_full(rt, &mut trail, &mut report);
    let was = trail.limit(unlimited);
    let is_put_again = puts_weak(rt, &mut trail, &mut report);
    report.truncate(9);
    let is_two = has_text(rt, alloc, &report, "weak\na: weak\n");
    is_put && is_full && was == 1 && unlimited == usize::MAX && is_put_again && is_two
}

#[test]
fn put_appends_a_fault_and_nothing_else(rt: HostRuntime) {
    assert!(rt; puts_a_fault(&rt, rt.alloc()) && is_full_at_its_limit(&rt, rt.alloc()));
}
