//! Values that may be null, and members that may be null or missing, beside those that may not.
ghost use Rattle.std.specs.Prelude.{Some, codes};

use super::told::told_with;
use garde::fields::Is;
use garde::{I18n, length, range};
use garde_schema::{
    Any, Closed, Duplicate, Empty, Entries, Flag, FormI18n, Given, Items, List, Makes, Map, Member,
    Null, Nullable, Nullish, Object, Optional, Text, TextRef, Tree, U8, Whole, WithDefault,
};
use std::alloc::{AllocError, Global};
use std::marker::PhantomData;

/// The forms of this module.
pub enum Case {
    Texts,
    Defaults,
    Made,
}

/// Makes the text `home`, as one that is there.
#[derive(Clone, Copy)]
struct AtHome;

impl<'a> Makes<Option<TextRef<'a>>> for AtHome {
    ghost made = { λ _. Some (codes "home") };

    fn make(&self, _alloc: Global) -> Option<TextRef<'a>> {
        Some(TextRef::new("home"))
    }
}

/// The value of a tree of this form, as text, or its report.
pub fn told_by<H: I18n + FormI18n>(
    alloc: Global,
    tree: &Tree<'_, '_>,
    case: &Case,
    h: &H,
) -> Result<String, AllocError> {
    match case {
        // Four members with texts, which differ in what may stand for one.
        Case::Texts => {
            let text = Text(Is(length!(min = 2, max = 3)));
            let must = Member("must", Nullable(text));
            let or = WithDefault("or", text, TextRef::new("a default that is too long"));
            let texts = (
                (must, Optional("may", Nullable(text))),
                (Nullish("ish", text), or),
            );
            told_with(alloc, tree, &Object(Closed(texts)), h)
        }
        // Members that have defaults of other types, or are null in other places.
        Case::Defaults => {
            let count = WithDefault("count", Whole(U8, Is(range!(min = 2))), 1);
            let twice = Member("twice", Nullable(Nullable(Whole(U8, ()))));
            let defaults = (
                (count, WithDefault("news", Flag, true)),
                ((Nullish("null", Null), Nullish("any", Any)), twice),
            );
            told_with(alloc, tree, &Nullable(Object(defaults)), h)
        }
        // Members whose defaults are made, and members that are not read.
        Case::Made => {
            let text = Text(Is(length!(max = 5)));
            let tags = WithDefault("tags", List(text), Empty);
            let made = (
                (WithDefault("name", text, "no name"), tags),
                WithDefault("at", Nullable(text), AtHome),
                WithDefault("flags", Map(Flag), Empty),
                Given(Empty, PhantomData::<&Entries<'_, u8>>),
                Given(7, PhantomData::<&u8>),
            );
            told_with(alloc, tree, &Object(Closed(made)), h)
        }
    }
}

/// Bodies, and what each reads as, in English and as codes.
pub const TEXTS: &[(&str, &str, &str)] = &[
    (
        "{\"must\":\"abc\",\"may\":\"bcd\",\"ish\":\"cde\",\"or\":\"def\"}",
        "((Some(TextRef(\"abc\")), Some(Some(TextRef(\"bcd\")))), (Some(TextRef(\"cde\")), TextRef(\"def\")))",
        "((Some(TextRef(\"abc\")), Some(Some(TextRef(\"bcd\")))), (Some(TextRef(\"cde\")), TextRef(\"def\")))",
    ),
    (
        "{\"must\":null,\"may\":null,\"ish\":null}",
        "((None, Some(None)), (None, TextRef(\"a default that is too long\")))",
        "((None, Some(None)), (None, TextRef(\"a default that is too long\")))",
    ),
    (
        "{\"must\":\"ab\"}",
        "((Some(TextRef(\"ab\")), None), (None, TextRef(\"a default that is too long\")))",
        "((Some(TextRef(\"ab\")), None), (None, TextRef(\"a default that is too long\")))",
    ),
    ("{}", "must: missing\n", "must: member_missing\n"),
    (
        "{\"must\":null,\"or\":null}",
        "or: not a text\n",
        "or: wrong_form wanted=Text found=Null\n",
    ),
    (
        "{\"must\":1,\"may\":false,\"ish\":[],\"or\":{}}",
        "must: not a text\nmay: not a text\nish: not a text\nor: not a text\n",
        "must: wrong_form wanted=Text found=Number\nmay: wrong_form wanted=Text found=Boolean\nish: wrong_form wanted=Text found=List\nor: wrong_form wanted=Text found=Object\n",
    ),
    (
        "{\"must\":\"a\",\"may\":\"b\",\"ish\":\"c\",\"or\":\"d\"}",
        "must: length is lower than 2\nmay: length is lower than 2\nish: length is lower than 2\nor: length is lower than 2\n",
        "must: length_lower_than min=2\nmay: length_lower_than min=2\nish: length_lower_than min=2\nor: length_lower_than min=2\n",
    ),
    (
        "{\"must\":null,\"must\":null,\"may\":null,\"may\":\"\",\"ish\":null,\"ish\":null,\"or\":\"ab\",\"or\":\"ab\"}",
        "must: repeated\nmay: repeated\nish: repeated\nor: repeated\n",
        "must: member_repeated\nmay: member_repeated\nish: member_repeated\nor: member_repeated\n",
    ),
    (
        "{\"must\":\"null\",\"May\":null}",
        "must: length is greater than 3\nMay: not known here\n",
        "must: length_greater_than max=3\nMay: member_unknown\n",
    ),
];

/// Bodies, and what each reads as.
pub const DEFAULTS: &[(&str, &str)] = &[
    ("null", "None"),
    (
        "{\"twice\":null}",
        "Some(((1, true), ((None, None), None)))",
    ),
    (
        "{\"count\":255,\"news\":false,\"null\":null,\"any\":null,\"twice\":7}",
        "Some(((255, false), ((None, None), Some(Some(7)))))",
    ),
    (
        "{\"any\":0,\"twice\":0}",
        "Some(((1, true), ((None, Some(())), Some(Some(0)))))",
    ),
    (
        "{\"count\":1,\"news\":0,\"null\":0,\"twice\":256}",
        "count: lower than 2\nnews: not true or false\nnull: not null\ntwice: out of range: 0 to 255\n",
    ),
    ("[null]", "not an object\n"),
];

/// Bodies, and what each reads as.
pub const MADE: &[(&str, &str)] = &[
    (
        "{}",
        "((TextRef(\"no name\"), Items([])), Some(TextRef(\"home\")), Items([]), Items([]), 7)",
    ),
    (
        "{\"flags\":{\"a\":true},\"at\":null,\"tags\":[\"b\"],\"name\":\"c\"}",
        "((TextRef(\"c\"), Items([TextRef(\"b\")])), None, Items([(TextRef(\"a\"), true)]), Items([]), 7)",
    ),
    (
        "{\"name\":null,\"tags\":\"\",\"at\":0,\"flags\":[],\"\":7}",
        "name: not a text\ntags: not a list\nat: not a text\nflags: not an object\n: not known here\n",
    ),
    (
        "{\"name\":\"no name\",\"tags\":[],\"tags\":[]}",
        "name: length is greater than 5\ntags: repeated\n",
    ),
];

// A text that is longer than what lies in a value.
const LONG: &str = "a text of more than twenty-two bytes";

#[test]
fn duplicates_values(rt: HostRuntime) {
    assert!(rt;
        7.duplicate() == 7
            && Some(true).duplicate() == Some(true)
            && TextRef::new(LONG).duplicate().text() == LONG
    );
}

#[test]
fn makes_values(rt: HostRuntime) {
    let text: TextRef<'_> = LONG.make(rt.alloc());
    let none: Items<u8> = Empty.make(rt.alloc());
    let seven: u8 = 7.make(rt.alloc());
    assert!(rt; text.text() == LONG && none.is_empty() && seven == 7);
}
