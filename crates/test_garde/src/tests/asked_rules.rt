//! Rules that are asked of a value which lives shorter than the trail, and what a list includes.
use crate::tests::OrEnd;
use crate::tests::told::reads;
use garde::fields::{Ascii, Each, Equal, IfSome, Is, Rules, Unique, ask_under, includes};
use garde::{Component, DefaultI18n, Report, Trail};
use std::alloc::Global;

/// Whether this is reported of a value under these rules, which stands under `v`.
fn is_told<T, R: Rules<T>>(alloc: Global, rules: &R, value: &T, text: &str) -> bool {
    let mut report = Report::new(alloc);
    let mut trail = Trail::new(alloc);
    let v = Component::key("v");
    let h = &DefaultI18n;
    let answer = ask_under(v, rules, value, &mut trail, &mut report, h);
    answer.is_ok() && reads(alloc, &report, text) == Ok(true)
}

/// The rule that items differ.
const APART: Unique<'static, Equal> = Unique("stands before", Equal);

/// Numbers, and what is reported of them where they have to differ.
static NUMBERS: [(&[u8], &str); 4] = [
    (&[], ""),
    (&[1, 2, 3], ""),
    (&[1, 2, 1], "v[2]: stands before\n"),
    (&[4, 4, 5, 4], "v[1]: stands before\nv[3]: stands before\n"),
];

#[test]
fn items_that_stand_before(rt: HostRuntime) {
    for (numbers, text) in &NUMBERS {
        let list = Vec::from_slice(rt.alloc(), numbers).or_end(&rt);
        assert!(rt;
            is_told(rt.alloc(), &APART, numbers, text) && is_told(rt.alloc(), &APART, &list, text)
        );
    }
}

/// Texts, and what is reported of them where each has to be ASCII.
static TEXTS: [(&[&str], &str); 3] = [
    (&[], ""),
    (&["a", "b"], ""),
    (&["é", "a", "ü"], "v[0]: not ascii\nv[2]: not ascii\n"),
];

#[test]
fn each_item_under_its_index(rt: HostRuntime) {
    for (texts, text) in &TEXTS {
        let list = Vec::from_slice(rt.alloc(), texts).or_end(&rt);
        assert!(rt;
            is_told(rt.alloc(), &Each(Is(Ascii)), texts, text)
                && is_told(rt.alloc(), &Each(Is(Ascii)), &list, text)
        );
    }
}

/// Options of a text, and what is reported of what they hold. A component without a name prints
/// nothing.
static OPTIONS: [(Option<&str>, &str); 3] = [
    (None, ""),
    (Some("a"), ""),
    (Some("é"), "v: not ascii\n"),
];

#[test]
fn what_an_option_holds(rt: HostRuntime) {
    for (option, text) in &OPTIONS {
        assert!(rt;
            is_told(rt.alloc(), &Each(Is(Ascii)), option, text)
                && is_told(rt.alloc(), &IfSome(Is(Ascii)), option, text)
        );
    }
}

/// Items, an item, and whether they include it.
static INCLUDED: [(&[u8], u8, bool); 5] = [
    (&[], 1, false),
    (&[1], 1, true),
    (&[2, 3], 1, false),
    (&[2, 3, 1], 1, true),
    (&[1, 2, 3], 1, true),
];

#[test]
fn whether_a_list_includes_an_item(rt: HostRuntime) {
    for (items, item, is_there) in &INCLUDED {
        assert!(rt; includes(items, &Equal, item) == *is_there);
    }
}
