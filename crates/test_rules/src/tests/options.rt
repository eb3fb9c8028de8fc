//! Tests of the rules of options of values that are no texts.
use super::tells;
use garde_i18n::DefaultI18n;
use garde_rules::{matches, range, required};

#[test]
fn asks_options_that_are_no_texts(rt: HostRuntime) {
    let alloc = rt.alloc();
    let h = DefaultI18n;
    let none: Option<u8> = None;
    let high = Some("greater than 3");
    let other = Some("does not match b field");
    assert!(rt;
        tells(range::apply(alloc, &Some(5u8), (None, Some(3)), &h), high)
            && tells(range::apply(alloc, &none, (None, Some(3)), &h), None)
            && tells(matches::apply(alloc, &none, ("b", &Some(1u8)), &h), other)
            && tells(matches::apply(alloc, &none, ("b", &none), &h), None)
            && tells(required::apply(alloc, &none, (), &h), Some("not set"))
            && tells(required::apply(alloc, &Some(1u8), (), &h), None)
    );
}
