//! The bodies of each form of these tests, and what each reads as.

use super::told::{Case, Coded, Codes, Tells, check};
use super::{
    checked, choices, enums, flattened, list_rules, lists, maps, nested, nulls, only_members,
    signup, unions,
};
use std::alloc::Global;
use std::process::Abort;

// Asks that each body reads as this.
fn compare<T: Tells>(rt: &impl Abort, alloc: Global, form: &T, rows: &[(&str, &str)]) {
    for (body, expected) in rows {
        check(rt, alloc, form, body.as_bytes(), expected);
    }
}

// Asks that each body reads as this, in English and as codes.
fn compare_codes(rt: &impl Abort, alloc: Global, form: &Coded, rows: &[(&str, &str, &str)]) {
    for (body, english, codes) in rows {
        check(rt, alloc, form, body.as_bytes(), english);
        check(rt, alloc, &Codes(form), body.as_bytes(), codes);
    }
}

#[test]
fn reads_lists(rt: HostRuntime) {
    compare(
        &rt,
        rt.alloc(),
        &Case::Lists(lists::Case::Tags),
        lists::TAGS,
    );
    compare(&rt, rt.alloc(), &Case::Lists(lists::Case::Few), lists::FEW);
    compare(
        &rt,
        rt.alloc(),
        &Case::Lists(lists::Case::Deep),
        lists::DEEP,
    );
    compare(
        &rt,
        rt.alloc(),
        &Case::Lists(lists::Case::Pair),
        lists::PAIR,
    );
}

#[test]
fn reads_lists_under_several_rules(rt: HostRuntime) {
    compare(
        &rt,
        rt.alloc(),
        &Case::ListRules(list_rules::Case::Several),
        list_rules::SEVERAL,
    );
    compare(
        &rt,
        rt.alloc(),
        &Case::ListRules(list_rules::Case::Apart),
        list_rules::APART,
    );
    compare(
        &rt,
        rt.alloc(),
        &Case::ListRules(list_rules::Case::Many),
        list_rules::MANY,
    );
}

#[test]
fn reads_lists_under_rules_of_items(rt: HostRuntime) {
    compare(
        &rt,
        rt.alloc(),
        &Case::ListRules(list_rules::Case::Each),
        list_rules::EACH,
    );
    compare(
        &rt,
        rt.alloc(),
        &Case::ListRules(list_rules::Case::MaybeApart),
        list_rules::MAYBE_APART,
    );
    compare(
        &rt,
        rt.alloc(),
        &Case::ListRules(list_rules::Case::Rush),
        list_rules::RUSH,
    );
}

#[test]
fn reads_maps_of_labels(rt: HostRuntime) {
    compare(
        &rt,
        rt.alloc(),
        &Case::Maps(maps::Case::Labels),
        maps::LABELS,
    );
    compare(
        &rt,
        rt.alloc(),
        &Case::Maps(maps::Case::FewLabels),
        maps::FEW_LABELS,
    );
}

#[test]
fn reads_maps_under_rules(rt: HostRuntime) {
    compare(&rt, rt.alloc(), &Case::Maps(maps::Case::Named), maps::NAMED);
    compare(&rt, rt.alloc(), &Case::Maps(maps::Case::Many), maps::MANY);
    compare(
        &rt,
        rt.alloc(),
        &Case::Maps(maps::Case::Nested),
        maps::NESTED,
    );
}

#[test]
fn reads_objects_in_objects(rt: HostRuntime) {
    compare(
        &rt,
        rt.alloc(),
        &Case::Nested(nested::Case::Closed),
        nested::CLOSED,
    );
    compare(
        &rt,
        rt.alloc(),
        &Case::Nested(nested::Case::Open),
        nested::OPEN,
    );
}

#[test]
fn reads_forms_under_rules(rt: HostRuntime) {
    compare(
        &rt,
        rt.alloc(),
        &Case::Checked(checked::Case::Lines),
        checked::LINES,
    );
    compare(
        &rt,
        rt.alloc(),
        &Case::Checked(checked::Case::Span),
        checked::SPANS,
    );
    compare(
        &rt,
        rt.alloc(),
        &Case::Checked(checked::Case::Ends),
        checked::ENDS,
    );
}

#[test]
fn reads_defaults(rt: HostRuntime) {
    compare(
        &rt,
        rt.alloc(),
        &Coded::Nulls(nulls::Case::Defaults),
        nulls::DEFAULTS,
    );
    compare(
        &rt,
        rt.alloc(),
        &Coded::Nulls(nulls::Case::Made),
        nulls::MADE,
    );
}

#[test]
fn reads_enums(rt: HostRuntime) {
    compare_codes(&rt, rt.alloc(), &Coded::Enums, enums::ORDERS);
    compare_codes(&rt, rt.alloc(), &Coded::Unions, unions::PAYMENTS);
}

#[test]
fn reads_a_sign_up(rt: HostRuntime) {
    compare_codes(&rt, rt.alloc(), &Coded::Signup, signup::SIGNUPS);
}

#[test]
fn reads_objects_of_one_member(rt: HostRuntime) {
    compare_codes(
        &rt,
        rt.alloc(),
        &Coded::OnlyMembers(only_members::Case::Payment),
        only_members::PAYMENTS,
    );
    compare_codes(
        &rt,
        rt.alloc(),
        &Coded::OnlyMembers(only_members::Case::Mixed),
        only_members::MIXED,
    );
}

#[test]
fn reads_choices(rt: HostRuntime) {
    for (form, rows) in choices::ROWS {
        compare_codes(&rt, rt.alloc(), form, rows);
    }
}

#[test]
fn reads_unions_that_are_eight_deep(rt: HostRuntime) {
    compare(&rt, rt.alloc(), &Case::Deep, only_members::DEEP);
}

#[test]
fn reads_flattened_members(rt: HostRuntime) {
    compare(
        &rt,
        rt.alloc(),
        &Case::Flattened(flattened::Case::Lent),
        flattened::LENT,
    );
    compare(
        &rt,
        rt.alloc(),
        &Case::Flattened(flattened::Case::Closed),
        flattened::CLOSED,
    );
    compare(
        &rt,
        rt.alloc(),
        &Case::Flattened(flattened::Case::Rest),
        flattened::REST,
    );
}

#[test]
fn reads_nulls(rt: HostRuntime) {
    compare_codes(
        &rt,
        rt.alloc(),
        &Coded::Nulls(nulls::Case::Texts),
        nulls::TEXTS,
    );
}
