//! Lists of letters, and a long list.

use crate::tests::report::samples::are_in_order;
use crate::tests::{OrEnd, shown, shows};
use garde_report::rc_list::List;
use std::alloc::Global;
use std::cmp::Ordering;
use std::process::Abort;

/// The list of these items, the first of them appended first.
fn list_of(rt: &impl Abort, alloc: Global, items: &[char]) -> List<char> {
    let mut list = List::new();
    for item in items {
        list = list.append(alloc, *item).or_end(rt);
    }
    list
}

/// Whether a list has these items, the last one first.
fn has_items(list: &List<char>, items: &[char]) -> bool {
    list.iter().eq(items)
}

/// Whether two items that are appended to `a` stand before it.
fn is_longer(rt: &impl Abort, alloc: Global, a: &List<char>) -> bool {
    let more = a.append(alloc, 'c').or_end(rt);
    let all = more.append(alloc, 'd').or_end(rt);
    all.len() == 3 && has_items(&all, &['d', 'c', 'a'])
}

#[test]
fn append_leaves_the_old_list(rt: HostRuntime) {
    let a = list_of(&rt, rt.alloc(), &['a']);
    let kept = a.clone().or_end(&rt);
    assert!(rt;
        is_longer(&rt, rt.alloc(), &a)
            && has_items(&a, &['a'])
            && kept.len() == 1
            && has_items(&list_of(&rt, rt.alloc(), &['b']), &['b'])
    );
}

/// Whether these stand before the last item of a list.
fn is_before(rt: &impl Abort, alloc: Global, items: &[char], before: &[char]) -> bool {
    let all = list_of(rt, alloc, items);
    match all.before().or_end(rt) {
        Some(list) => has_items(&list, before) && list.iter().len() == before.len(),
        None => false,
    }
}

#[test]
fn before_leaves_the_last_item_out(rt: HostRuntime) {
    let none = List::<char>::new();
    assert!(rt;
        is_before(&rt, rt.alloc(), &['a', 'c', 'd'], &['c', 'a'])
            && none.is_empty()
            && none.before().or_end(&rt).is_none()
    );
}

/// The items of a list, what it shows a programmer, those of another list, and the order of both.
static ORDERED: [(&[char], &str, &[char], Ordering); 5] = [
    (&['b'], "['b']", &['a', 'c'], Ordering::Less),
    (&['a', 'd'], "['a', 'd']", &['b', 'c'], Ordering::Less),
    (&['a', 'd'], "['a', 'd']", &['a', 'c'], Ordering::Greater),
    (&['a', 'c'], "['a', 'c']", &['a', 'c'], Ordering::Equal),
    (&['a', 'c', 'd'], "['a', 'c', 'd']", &[], Ordering::Greater),
];

/// Whether a list shows this text, and is in this order with another one.
fn is_row(
    rt: &impl Abort,
    alloc: Global,
    (items, text, others, order): &(&[char], &str, &[char], Ordering),
) -> bool {
    let list = list_of(rt, alloc, items);
    shows(rt, alloc, &list, text) && are_in_order(&list, &list_of(rt, alloc, others), *order)
}

#[test]
fn fewer_items_come_first(rt: HostRuntime) {
    for row in &ORDERED {
        assert!(rt; is_row(&rt, rt.alloc(), row));
    }
}

/// The list of the numbers below this one.
fn numbers_below(rt: &impl Abort, alloc: Global, size: u32) -> List<u32> {
    let mut list = List::new();
    for item in 0..size {
        list = list.append(alloc, item).or_end(rt);
    }
    list
}

#[test]
fn a_million_items_need_no_deep_stack(rt: HostRuntime) {
    let list = numbers_below(&rt, rt.alloc(), 1_000_000);
    // Nine items of ten have six digits, and between two items stand a comma and a blank.
    assert!(rt;
        are_in_order(&list, &list.clone().or_end(&rt), Ordering::Equal)
            && list.iter().last().copied() == Some(0)
            && shown(&rt, rt.alloc(), &list).len() == 7_888_890
    );
}
