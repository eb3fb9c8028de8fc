//! Types with parameters.
use super::tells;
use crate::tests::{OrEnd, text_of};
use example_ported::generic::{Choice, Couple, Grid, Labelled, Plain};
use example_ported::wrapped::Nickname;
use std::alloc::Global;
use std::process::Abort;

/// A name of this text.
fn name(rt: &impl Abort, alloc: Global, from: &str) -> Nickname {
    Nickname(text_of(rt, alloc, from))
}

/// Whether this is reported for a couple of this text, twice.
fn is_told_of_a_couple(rt: &impl Abort, alloc: Global, from: &str, told: &str) -> bool {
    let couple = Couple {
        left: name(rt, alloc, from),
        right: vec![in alloc; name(rt, alloc, from)].or_end(rt),
    };
    tells(rt, alloc, &couple, &(), told)
}

/// Whether this is reported for a value of which nothing is asked, with a label.
fn is_told_of_a_label(rt: &impl Abort, alloc: Global, from: &str, told: &str) -> bool {
    let labelled: Labelled<u8> = Labelled {
        value: 7,
        label: text_of(rt, alloc, from),
    };
    tells(rt, alloc, &labelled, &(), told)
}

/// Whether this is reported for a choice.
fn is_told(rt: &impl Abort, alloc: Global, value: Choice<'_, Nickname>, text: &str) -> bool {
    tells(rt, alloc, &value, &(), text)
}

/// Whether this is reported for a part of this text, which is there.
fn is_told_of_a_part(rt: &impl Abort, alloc: Global, from: &str, told: &str) -> bool {
    let plain = Plain {
        part: Some(name(rt, alloc, from)),
    };
    tells(rt, alloc, &plain, &(), told)
}

/// Whether the report of each choice is the right one.
fn are_choices_told(rt: &impl Abort, alloc: Global) -> bool {
    is_told(rt, alloc, Choice::Name { name: "a" }, "")
        && is_told(rt, alloc, Choice::Name { name: "é" }, "name: not ascii\n")
        && is_told(rt, alloc, Choice::Neither, "")
        && is_told(rt, alloc, Choice::Part(name(rt, alloc, "abc")), "")
        && is_told(
            rt,
            alloc,
            Choice::Part(name(rt, alloc, "ab")),
            "[0]: length is lower than 3\n",
        )
}

/// Whether the report of each grid is the right one.
fn are_grids_told(rt: &impl Abort, alloc: Global) -> bool {
    tells(rt, alloc, &Grid { cells: [9, 1] }, &(), "")
        && tells(
            rt,
            alloc,
            &Grid { cells: [9, 10] },
            &(),
            "cells[1]: greater than 9\n",
        )
}

/// Whether the report of each other value is the right one.
fn are_told(rt: &impl Abort, alloc: Global) -> bool {
    let short = "left: length is lower than 3\nright[0]: length is lower than 3\n";
    is_told_of_a_couple(rt, alloc, "abc", "")
        && is_told_of_a_couple(rt, alloc, "ab", short)
        && is_told_of_a_label(rt, alloc, "a", "")
        && is_told_of_a_label(rt, alloc, "é", "label: not ascii\n")
        && is_told_of_a_part(rt, alloc, "abc", "")
        && is_told_of_a_part(rt, alloc, "ab", "part: length is lower than 3\n")
}

#[test]
fn types_with_parameters(rt: HostRuntime) {
    assert!(rt;
        are_choices_told(&rt, rt.alloc())
            && are_grids_told(&rt, rt.alloc())
            && are_told(&rt, rt.alloc())
    );
}
