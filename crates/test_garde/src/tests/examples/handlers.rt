//! Reports under other handlers than the default one.
use super::guide::signup;
use super::prints_as;
use example_types::german::German;
use garde::{CodeI18n, I18n, Validate};
use std::alloc::Global;
use std::process::Abort;

/// Whether this is reported for one who signs up with five faults, under a handler.
fn is_told_by<H: I18n>(rt: &impl Abort, alloc: Global, handler: &H, text: &str) -> bool {
    let bad = signup(rt, alloc);
    prints_as(rt, alloc, bad.validate_with_i18n(alloc, &(), handler), text)
}

#[test]
fn a_handler_of_ones_own_and_one_of_codes(rt: HostRuntime) {
    let german =
        "name: choose a longer name\nagain: anders als im Feld password\nage: fehlt\nhost: nicht mit .org am Ende\nterms: accept the terms\n";
    let codes =
        "name: choose a longer name\nagain: matches_field_mismatch field=password\nage: required_not_set\nhost: suffix_missing pattern=.org\nterms: accept the terms\n";
    assert!(rt;
        is_told_by(&rt, rt.alloc(), &German, german)
            && is_told_by(&rt, rt.alloc(), &CodeI18n, codes)
    );
}
