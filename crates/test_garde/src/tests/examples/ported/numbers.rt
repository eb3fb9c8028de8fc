//! Types of numbers, and an enum.
use super::tells;
use crate::tests::text_of;
use example_ported::event::Event;
use example_ported::reading::Reading;
use std::alloc::Global;
use std::process::Abort;

static READINGS: [(Reading, &str); 2] = [
    (
        Reading {
            age: 18,
            height: 5000,
            kind: 7,
            channel: 255,
            coldest: -40,
            depth: -1,
            tilt: -10,
            drift: 0,
        },
        "",
    ),
    (
        Reading {
            age: 17,
            height: 5001,
            kind: 8,
            channel: 0,
            coldest: -41,
            depth: 0,
            tilt: 11,
            drift: -1,
        },
        "age: lower than 18\nheight: greater than 5000\nkind: greater than 7\nchannel: lower than 1\ncoldest: lower than -40\ndepth: greater than -1\ntilt: greater than 10\ndrift: lower than 0\n",
    ),
];

#[test]
fn each_number_within_its_bounds(rt: HostRuntime) {
    for (reading, text) in &READINGS {
        assert!(rt; tells(&rt, rt.alloc(), reading, &(), text), "{text}");
    }
}

/// Whether this is reported for an event.
fn is_told(rt: &impl Abort, alloc: Global, event: Event, told: &str) -> bool {
    tells(rt, alloc, &event, &(), told)
}

/// Whether this is reported for someone who says this and reports it.
fn is_told_of_saying(rt: &impl Abort, alloc: Global, from: &str, told: &str) -> bool {
    let said = Event::Say {
        text: text_of(rt, alloc, from),
        sender: 0,
        report: text_of(rt, alloc, from),
    };
    is_told(rt, alloc, said, told)
}

/// Whether this is reported for a pair of this text, twice.
fn is_told_of_a_pair(rt: &impl Abort, alloc: Global, from: &str, told: &str) -> bool {
    let pair = Event::Pair(text_of(rt, alloc, from), text_of(rt, alloc, from));
    is_told(rt, alloc, pair, told)
}

/// Whether the report of each variant of texts is the right one.
fn are_texts_told(rt: &impl Abort, alloc: Global) -> bool {
    let said = "text: not ascii\nreport: length is greater than 3\n";
    is_told_of_saying(rt, alloc, "abc", "")
        && is_told_of_saying(rt, alloc, "é12", said)
        && is_told_of_a_pair(rt, alloc, "ab", "")
        && is_told_of_a_pair(rt, alloc, "é", "[0]: not ascii\n")
}

/// Whether the report of each variant of a number or of nothing is the right one.
fn are_told(rt: &impl Abort, alloc: Global) -> bool {
    is_told(rt, alloc, Event::Move { steps: 10 }, "")
        && is_told(
            rt,
            alloc,
            Event::Move { steps: 11 },
            "steps: greater than 10\n",
        )
        && is_told(rt, alloc, Event::Wait(60), "")
        && is_told(rt, alloc, Event::Wait(61), "[0]: greater than 60\n")
        && is_told(rt, alloc, Event::Stop, "")
        && is_told(rt, alloc, Event::Mark(255), "")
}

#[test]
fn each_variant_in_its_way(rt: HostRuntime) {
    assert!(rt; are_texts_told(&rt, rt.alloc()) && are_told(&rt, rt.alloc()));
}
