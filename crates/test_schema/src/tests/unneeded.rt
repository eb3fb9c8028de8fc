//! Texts of faults of form that need no memory, while each request for memory fails.

use super::is_handed;
use garde::DefaultI18n;
use garde_schema::{FormFault, FormI18n, Integer, Wanted};
use garde_tape::Kind;
use std::alloc::{AllocError, Global};
use test_memory::Scarce;

/// A fault of each kind, and the text that the default handler has of it.
static STORED: [(FormFault, &str); 17] = [
    (FormFault::Wrong(Wanted::List, Kind::Null), "not a list"),
    (
        FormFault::Wrong(Wanted::Character, Kind::Text),
        "not a character",
    ),
    (FormFault::Wrong(Wanted::Date, Kind::Text), "not a date"),
    (FormFault::Wrong(Wanted::Time, Kind::Text), "not a time"),
    (
        FormFault::Wrong(Wanted::DateTime, Kind::Text),
        "not a date and time",
    ),
    (
        FormFault::Wrong(Wanted::Timestamp, Kind::Text),
        "not a timestamp",
    ),
    (
        FormFault::Wrong(Wanted::Ipv4, Kind::Text),
        "not an IPv4 address",
    ),
    (
        FormFault::Wrong(Wanted::Ipv6, Kind::Text),
        "not an IPv6 address",
    ),
    (FormFault::Wrong(Wanted::Uuid, Kind::Text), "not a UUID"),
    (
        FormFault::Wrong(Wanted::Version, Kind::Text),
        "not a version",
    ),
    (FormFault::Wrong(Wanted::Url, Kind::Text), "not a URL"),
    (FormFault::OutOfRange(Integer::U8), "out of range: 0 to 255"),
    (FormFault::Missing, "missing"),
    (FormFault::Repeated, "repeated"),
    (FormFault::Unknown, "not known here"),
    (FormFault::NotOneOf, "not one of the known values"),
    (FormFault::RowLength, "not as many fields as in the header"),
];

// Whether a handler gives each of these texts.
fn gives_each<H: FormI18n>(alloc: Global, h: &H) -> bool {
    let mut all = true;
    for (fault, wanted) in &STORED {
        all = all && is_handed(h.form_fault(alloc, *fault), wanted);
    }
    all
}

// Whether a reference to the default handler hands them on without memory.
fn hands_on_without_memory(alloc: Global) -> Result<bool, AllocError> {
    let mut memory = Scarce::taken(alloc)?;
    memory.begin();
    let answer = gives_each(alloc, &&DefaultI18n);
    memory.end();
    Ok(answer)
}

#[test]
fn a_reference_to_a_handler_copies_no_text_of_a_form(rt: HostRuntime) {
    assert!(rt; hands_on_without_memory(rt.alloc()) == Ok(true));
}
