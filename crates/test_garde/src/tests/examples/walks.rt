//! What is reported for lists that are walked by closures.
use super::{owned, prints_as};
use crate::tests::{OrEnd, text_of};
use example_types::ledger::{Ledger, Pairs};
use example_types::names::Names;
use garde::{DefaultI18n, FirstError, Report, Trail, Validate};
use std::alloc::Global;
use std::process::Abort;

/// Whether a report is of the first of the faults in this text, and it is said whether it is of all.
fn is_first(rt: &impl Abort, alloc: Global, report: Report, is_all: bool, text: &str) -> bool {
    report.len() == 1
        && is_all == (text.lines().count() == 1)
        && text.starts_with(report.to_string(alloc).or_end(rt).as_str())
}

/// Whether the first of the faults in this text is found, and it is said whether it is the only one.
fn is_told_first<V: Validate<Context = ()>>(
    rt: &impl Abort,
    alloc: Global,
    value: &V,
    text: &str,
) -> bool {
    match value.validate_first(alloc, &(), 1, &DefaultI18n) {
        Ok(()) => text.is_empty(),
        Err(FirstError::All(report)) => is_first(rt, alloc, report, true, text),
        Err(FirstError::First(report)) => is_first(rt, alloc, report, false, text),
        Err(FirstError::Memory) => false,
    }
}

/// Whether this is reported for a value and takes so many nodes, and its first fault alone where that
/// is asked for.
pub fn is_told<V: Validate<Context = ()>>(
    rt: &impl Abort,
    alloc: Global,
    value: &V,
    text: &str,
    nodes: usize,
) -> bool {
    let mut trail = Trail::new(alloc);
    let answer = value.validate_on(&(), &mut trail, &DefaultI18n);
    prints_as(rt, alloc, answer, text)
        && trail.nodes() == nodes
        && is_told_first(rt, alloc, value, text)
}

/// The texts that stand there, as names.
fn names(rt: &impl Abort, alloc: Global, texts: &[Option<&str>]) -> Names {
    let mut items = Vec::new(alloc);
    for text in texts {
        items.push(owned(rt, alloc, *text)).or_end(rt);
    }
    Names { items }
}

#[test]
fn two_walks_by_closures(rt: HostRuntime) {
    let each = "items[0]: not set\nitems[1]: not ascii\nitems[2]: length is lower than 1\n";
    let some = names(&rt, rt.alloc(), &[None, Some("é"), Some("")]);
    assert!(rt;
        is_told(&rt, rt.alloc(), &some, each, 6)
            && is_told(
                &rt,
                rt.alloc(),
                &names(&rt, rt.alloc(), &[]),
                "items: length is lower than 1\n",
                1,
            )
    );
}

/// A ledger of these pairs of a key and an owner.
fn ledger(rt: &impl Abort, alloc: Global, pairs: &[(&str, &str)]) -> Ledger {
    let mut rows = Vec::new(alloc);
    for (key, owner) in pairs {
        rows.push((text_of(rt, alloc, key), text_of(rt, alloc, owner)))
            .or_end(rt);
    }
    Ledger {
        owners: Pairs { rows },
    }
}

#[test]
fn pairs_under_their_keys(rt: HostRuntime) {
    let ledger = ledger(&rt, rt.alloc(), &[("b", "é"), ("a", "Ada"), ("b", "ü")]);
    assert!(rt; is_told(&rt, rt.alloc(), &ledger, "b: not ascii\nb: not ascii\n", 2));
}
