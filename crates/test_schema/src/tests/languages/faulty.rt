//! Faulty tables, each with the faults that are reported.

use super::english;
use garde_catalog::{Catalog, CatalogError, CatalogFault, Entry, Message, TemplateFault, Wrong};
use std::alloc::Global;

/// How many messages a table has to have.
const NEEDED: usize = 69;

static TEXTS: [(Message, &str, TemplateFault); 9] = [
    (
        ("length_lower_than", "min", ""),
        "kürzer als {max}",
        TemplateFault::UnknownPlace,
    ),
    (
        ("length_lower_than", "min", ""),
        "kürzer als {min",
        TemplateFault::StrayBrace,
    ),
    (
        ("length_lower_than", "min", ""),
        "zu kurz",
        TemplateFault::MissingPlace,
    ),
    (
        ("out_of_range", "least", "greatest"),
        "bis {greatest}",
        TemplateFault::MissingPlace,
    ),
    (
        ("required_not_set", "", ""),
        "fehlt {min}",
        TemplateFault::UnknownPlace,
    ),
    (
        ("required_not_set", "", ""),
        "fehlt {",
        TemplateFault::StrayBrace,
    ),
    (
        ("required_not_set", "", ""),
        "fehlt }",
        TemplateFault::StrayBrace,
    ),
    (
        ("required_not_set", "", ""),
        "{}",
        TemplateFault::UnknownPlace,
    ),
    (
        ("prefix_missing", "pattern", ""),
        "{pat{tern}",
        TemplateFault::StrayBrace,
    ),
];

// How many faults a table has, and whether this is one of them.
fn faults_of<'t>(
    alloc: Global,
    table: &'t [Entry<'t>],
    wanted: CatalogFault,
) -> Option<(usize, bool)> {
    match Catalog::lent(alloc, table, &[]) {
        Err(CatalogError::Faults(faults)) => {
            Some((faults.len(), faults.as_slice().contains(&wanted)))
        }
        _ => None,
    }
}

#[test]
fn tells_what_is_wrong_with_a_text(rt: HostRuntime) {
    for (message, text, fault) in &TEXTS {
        let wanted = CatalogFault {
            message: *message,
            wrong: Wrong::Template(*fault),
        };
        let table = [(message.0, *text)];
        assert!(rt;
            faults_of(rt.alloc(), &table, wanted) == Some((NEEDED, true)),
            "{text}"
        );
    }
}

static TWICE: [Entry<'static>; 2] = [("not_text", "a"), ("not_text", "b")];

// Whether this is one of as many faults as there are messages, of a table with one code twice and no other.
fn is_fault_of_twice(alloc: Global, code: &'static str, wrong: Wrong) -> bool {
    let message = (code, "", "");
    faults_of(alloc, &TWICE, CatalogFault { message, wrong }) == Some((NEEDED, true))
}

#[test]
fn tells_a_repeated_and_a_missing_text(rt: HostRuntime) {
    assert!(rt;
        is_fault_of_twice(rt.alloc(), "not_text", Wrong::Repeated)
            && is_fault_of_twice(rt.alloc(), "not_url", Wrong::Missing)
    );
}

static ONE: [Entry<'static>; 1] = [("not_text", "kein Text")];

// Whether a catalog was made, and has the text of this table, and another from its fallback.
fn is_mixed(made: Result<Catalog<'_>, CatalogError>) -> bool {
    match made {
        Ok(h) => h.word("not_text") == "kein Text" && h.word("not_url") == "not a URL",
        Err(_) => false,
    }
}

#[test]
fn takes_missing_texts_from_the_fallback(rt: HostRuntime) {
    let table = [("not_text", "kein Text")];
    assert!(rt;
        is_mixed(Catalog::with_fallback(rt.alloc(), &ONE, english()))
            && is_mixed(Catalog::lent(rt.alloc(), &table, english()))
    );
}
