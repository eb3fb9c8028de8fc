//! Fields `Accept-Language`, each with the language that it asks for.

use super::english;
use crate::tests::long_text::Long;
use crate::tests::{OrEnd, is_text};
use garde_catalog::{Catalog, Catalogs, Language, languages, ranges_of};
use std::alloc::Global;

static ASKED: [(&str, &str); 33] = [
    ("de", "de"),
    ("DE-at", "de"),
    ("fr-CH, fr;q=0.9, en;q=0.8, de;q=0.7, *;q=0.5", "fr"),
    ("en;q=0.2, de;q=0.8", "de"),
    ("en;q=0.5, cs", "cs"),
    ("cs;q=0", ""),
    ("en;q=0, de;q=0.001", "de"),
    ("zh-Hant-TW", "zh"),
    ("zh-Hans-CN", "zh-Hans"),
    ("zh-CN", "zh-CN"),
    ("pt-PT", "pt"),
    ("pt-BR", "pt-BR"),
    ("en-GB-oed", "en"),
    ("den", ""),
    ("d", ""),
    ("de_AT", ""),
    ("", ""),
    ("*", ""),
    (" , de ;  q=1.000 ,", "de"),
    ("de ; Q=1", "de"),
    ("de ; q = 1", ""),
    ("de;q=0.5 , fr;q=0.50, it;q=0.500", "de"),
    ("de;q=1.0,\tfr;q=1.001", "de"),
    ("en;q=0.5, *;q=1", "en"),
    ("en;q=0, *", ""),
    ("de-abcdefgh-1", "de"),
    ("de-abcdefghi, 1e, -de, de-, fr--ca", ""),
    ("\u{feff}de, d\u{0}e, dé", ""),
    ("de\n, fr\r", ""),
    ("de;q=2, en;q=1.5, zh;q=0.1234", ""),
    ("de;q=, en;q, fr;r=1", ""),
    ("de;level=1", ""),
    ("de, en;q=1", "de"),
];

// The tag of the language that a field asks for, or nothing.
fn tag_of(field: &str) -> &'static str {
    match Language::asked(field.as_bytes(), &languages()) {
        Some(language) => language.tag,
        None => "",
    }
}

// The tag of the language that the ranges of a field ask for, or nothing.
fn tag_of_ranges(alloc: Global, field: &str) -> &'static str {
    match ranges_of(alloc, field.as_bytes()) {
        Ok(ranges) => match Language::picked(ranges.as_slice(), &languages()) {
            Some(language) => language.tag,
            None => "",
        },
        Err(_) => "out of memory",
    }
}

#[test]
fn finds_the_language_that_is_asked_for(rt: HostRuntime) {
    for (field, tag) in &ASKED {
        assert!(rt;
            tag_of(field) == *tag && tag_of_ranges(rt.alloc(), field) == *tag,
            "{field}"
        );
    }
}

// Long fields that ask for no language, and how many bytes each has.
static LONG: [(Long, usize); 2] = [
    (
        Long::Repeated("", (5461, "xx-yy;q=0.9,"), "", (0, ""), ""),
        65532,
    ),
    (Long::Repeated("", (200, "l"), "", (0, ""), ""), 200),
];

#[test]
fn reads_a_field_of_64_kib(rt: HostRuntime) {
    for (field, length) in &LONG {
        let field = field.text(rt.alloc()).or_end(&rt);
        assert!(rt; field.len() == *length && tag_of(field.as_str()) == "");
    }
}

static NAMED: [(&str, &str); 12] = [
    ("de", "de"),
    ("DE-at", "de"),
    ("zh-Hant-TW", "zh"),
    ("zh-hans-CN", "zh-Hans"),
    ("pt-BR", "pt-BR"),
    ("en-GB-oed", "en"),
    ("den", ""),
    ("d", ""),
    ("", ""),
    ("*", ""),
    ("de;q=1", ""),
    ("cs_CZ", ""),
];

// The tag of the language of a tag, or nothing.
fn tag_named(tag: &str) -> &'static str {
    match Language::named(tag, &languages()) {
        Some(language) => language.tag,
        None => "",
    }
}

#[test]
fn finds_the_language_of_a_tag(rt: HostRuntime) {
    for (tag, known) in &NAMED {
        assert!(rt; tag_named(tag) == *known, "{tag}");
    }
}

// Whether the catalog of a tag has this text.
fn is_in(alloc: Global, tag: &str, text: &str) -> bool {
    match Catalog::in_language(alloc, tag, &languages(), english()) {
        Ok(catalog) => catalog.word("member_missing") == text,
        Err(_) => false,
    }
}

#[test]
fn makes_the_catalog_of_a_tag(rt: HostRuntime) {
    assert!(rt; is_in(rt.alloc(), "de-AT", "fehlt") && is_in(rt.alloc(), "tlh", "missing"));
}

// Whether the catalogs answer a field by this tag and this text.
fn is_answered(catalogs: &Catalogs, field: &[u8], tag: &str, text: &str) -> bool {
    let place = catalogs.asked(field);
    catalogs.tag(place) == tag && catalogs.catalog(place).word("member_missing") == text
}

#[test]
fn has_the_catalogs_of_all_languages(rt: HostRuntime) {
    let (alloc, offered) = (rt.alloc(), languages());
    let is_right = match Catalogs::new(alloc, &offered, offered[0]) {
        Ok(all) => {
            is_answered(&all, b"en;q=0.5, cs", "cs", "chybí")
                && is_answered(&all, b"hi-IN", "hi", "मौजूद नहीं है")
                && is_answered(&all, b"cs;q=0", "en", "missing")
                && is_answered(&all, b"\xff", "en", "missing")
        }
        Err(_) => false,
    };
    assert!(rt; is_right);
}

// Tags behind `--language`, each with the text of a missing member in the language that it asks for, or why
// there is none.
static SPOKEN: [(Option<&str>, &str); 5] = [
    (None, "missing"),
    (Some("de-AT"), "fehlt"),
    (Some("en"), "missing"),
    (Some(""), "--language must be followed by one of en de"),
    (Some("cs"), "--language must be followed by one of en de"),
];

// Whether a tag is answered by this text, where two languages are offered.
fn is_spoken(alloc: Global, tag: Option<&str>, text: &str) -> bool {
    match Catalog::spoken(alloc, tag, &languages()[..2], english()) {
        Ok(catalog) => catalog.word("member_missing") == text,
        Err(error) => is_text(error.to_string(alloc), text),
    }
}

#[test]
fn makes_the_catalog_that_words_ask_for(rt: HostRuntime) {
    for (tag, text) in &SPOKEN {
        assert!(rt; is_spoken(rt.alloc(), *tag, text));
    }
}
