//! Tests of walks over items.
ghost use Rattle.std.specs.Prelude.{◌<◌};

use crate::tests::{OrEnd, is_at};
use garde_report::{Component, Report, Trail};
use garde_rules::inner::{self, Inner};
use std::alloc::{AllocError, Global};
use std::collections::BTreeMap;
use std::process::Abort;

/// Pushes the component of an item. Returns `Err` at the item 9.
fn push_unless_9<'a>(
    item: &u8,
    component: Component<'a>,
    trail: &mut Trail<'a>,
    _report: &mut Report,
) -> Result<(), AllocError> {
    if *item == 9 {
        return Err(AllocError);
    }
    trail.push(component)
}

/// Pushes the component of each item, and so leaves it on the trail. Returns `Err` at the item 9.
fn push_all<'a, C: Inner<u8>>(
    field: &'a C,
    trail: &mut Trail<'a>,
    report: &mut Report,
) -> Result<(), AllocError> {
    inner::apply(field, trail, report, push_unless_9)
}

/// Whether the walk comes to its end or not, as it is said, and leaves this path.
fn leaves<C: Inner<u8>>(rt: &impl Abort, alloc: Global, field: &C, done: bool, path: &str) -> bool {
    let mut trail = Trail::new(alloc);
    let mut report = Report::new(alloc);
    let answer = push_all(field, &mut trail, &mut report);
    answer.is_ok() == done && is_at(rt, &mut trail, path)
}

/// Items, whether the walk comes to its end, and the path that it leaves.
static WALKS: [(&[u8], bool, &str); 3] = [
    (&[1, 2], true, "[0][1]"),
    (&[1, 9, 2], false, "[0]"),
    (&[], true, ""),
];

#[test]
fn each_item_until_a_refusal(rt: HostRuntime) {
    for (items, done, path) in &WALKS {
        assert!(rt; leaves(&rt, rt.alloc(), items, *done, path), "{path}");
    }
}

/// Whether a walk by the method leaves this path.
fn leaves_by_the_method<C: Inner<u8>>(
    rt: &impl Abort,
    alloc: Global,
    field: &C,
    path: &str,
) -> bool {
    let mut trail = Trail::new(alloc);
    let mut report = Report::new(alloc);
    field
        .validate_inner(&mut trail, &mut report, push_unless_9)
        .or_end(rt);
    is_at(rt, &mut trail, path)
}

/// The items of a map, the third of which fails.
static ITEMS: [(&str, u8); 4] = [("b", 1), ("c", 9), ("a", 2), ("d", 3)];

#[test]
fn a_map_under_its_keys(rt: HostRuntime) {
    let mut items = BTreeMap::new(rt.alloc());
    for (key, item) in &ITEMS {
        let key = String::from_str(rt.alloc(), key).or_end(&rt);
        items.insert(key, *item).or_end(&rt);
    }
    assert!(rt; leaves(&rt, rt.alloc(), &items, false, "a.b"));
}

/// Whether a walk of 1 and 2 leaves this path. Its closure divides by each item, so it asks that
/// none is 0.
fn leaves_and_divides(rt: &impl Abort, alloc: Global, path: &str) -> bool {
    let items = [1u8, 2];
    let mut trail = Trail::new(alloc);
    let mut report = Report::new(alloc);
    inner::apply(
        &items,
        &mut trail,
        &mut report,
        |item: &u8, component, trail, _report|
            requires { 0 < item.now }
        {
            let _share = 100 / *item;
            trail.push(component)
        },
    )
    .or_end(rt);
    is_at(rt, &mut trail, path)
}

#[test]
fn vectors_arrays_boxes_and_options(rt: HostRuntime) {
    let alloc = rt.alloc();
    let items = vec![in alloc; 1u8, 2].or_end(&rt);
    let boxed = vec![in alloc; 1u8, 2].or_end(&rt).into_boxed_slice();
    assert!(rt;
        leaves(&rt, alloc, &items, true, "[0][1]")
            && leaves(&rt, alloc, &boxed, true, "[0][1]")
            && leaves(&rt, alloc, &[1u8], true, "[0]")
            && leaves(&rt, alloc, &Some(9u8), false, "")
            && leaves(&rt, alloc, &None::<u8>, true, "")
            && leaves_by_the_method(&rt, alloc, &[1u8, 2], "[0][1]")
            && leaves_and_divides(&rt, alloc, "[0][1]")
    );
}
