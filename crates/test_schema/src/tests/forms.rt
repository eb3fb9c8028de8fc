//! Bodies that are read by a form, with a handler that gives other texts: the whole report of each, or
//! its value.
ghost use Rattle.std.specs.Prelude.{nat_le, length};
ghost use Rattle.garde.specs.Fields.{asks};

use super::is_handed;
use super::long::is_told;
use super::long_text::Long;
use super::texts::Texts;
use super::told::{Tells, check, told_with};
use garde::fields::{Is, Rule};
use garde::{DefaultI18n, I18n, RuleError};
use garde_problem::WithCodes;
use garde_schema::{
    Any, Closed, Flag, FormFault, FormI18n, Integer, Member, Null, Object, Optional, Text, TextRef,
    Wanted,
};
use garde_tape::{Kind, Tree};
use std::alloc::{AllocError, Global};
use std::borrow::CowStr;

// The rule that a text has so many bytes.
#[derive(Clone, Copy)]
struct Least(usize);

impl<'a> Rule<TextRef<'a>> for Least {
    ghost finds = { λ least text. asks "too short" (nat_le least.0 (length text)) };

    fn find<H: I18n>(&self, alloc: Global, value: &TextRef<'a>, _h: &H) -> Result<(), RuleError> {
        if self.0 <= value.text().len() {
            Ok(())
        } else {
            Err(RuleError::of(alloc, Ok(CowStr::Borrowed("too short"))))
        }
    }
}

// A person with a name, who wants news or not, has a motto or none, and whose address has a town.
struct Person;

impl Tells for Person {
    fn tell(&self, alloc: Global, tree: &Tree<'_, '_>) -> Result<String, AllocError> {
        let town = Object(Member("town", Text((Is(Least(2)), Is(Least(3))))));
        let person = Closed((
            (Member("name", Text(Is(Least(3)))), Member("news", Flag)),
            (
                Optional("motto", Text(())),
                (
                    Member("address", town),
                    (Member("end", Null), Optional("more", Any)),
                ),
            ),
        ));
        told_with(alloc, tree, &Object(person), &Texts(DefaultI18n))
    }
}

const BODIES: &[(&str, &str)] = &[
    (
        "{\"name\":\"Ada\",\"news\":true,\"address\":{\"town\":\"Bern\"},\"end\":null}",
        "((TextRef(\"Ada\"), true), (None, (TextRef(\"Bern\"), ((), None))))",
    ),
    (
        "{\"more\":[1],\"end\":null,\"address\":{\"town\":\"Ulm\",\"no\":7},\"motto\":\"\\u0061\",\"news\":false,\"name\":\"Bob\"}",
        "((TextRef(\"Bob\"), false), (Some(TextRef(\"a\")), (TextRef(\"Ulm\"), ((), Some(())))))",
    ),
    (
        "{}",
        "name: missing\nnews: missing\naddress: missing\nend: missing\n",
    ),
    ("[]", "list in place of object\n"),
    ("null", "null in place of object\n"),
    ("\"name\"", "text in place of object\n"),
    (
        "{\"name\":null,\"news\":null,\"motto\":null,\"address\":null,\"end\":null,\"more\":null}",
        "name: null in place of text\nnews: null in place of boolean\nmotto: null in place of text\naddress: null in place of object\n",
    ),
    (
        "{\"name\":[],\"news\":[],\"motto\":[],\"address\":[],\"end\":[],\"more\":[]}",
        "name: list in place of text\nnews: list in place of boolean\nmotto: list in place of text\naddress: list in place of object\nend: list in place of null\n",
    ),
    (
        "{\"name\":\"Al\",\"news\":\"no\",\"address\":{\"town\":\"U\"},\"end\":null}",
        "name: too short\nnews: text in place of boolean\naddress.town: too short\naddress.town: too short\n",
    ),
    (
        "{\"name\":\"Ada\",\"name\":\"Al\",\"news\":1,\"motto\":\"a\",\"motto\":\"b\",\"address\":{\"town\":1e400},\"end\":0}",
        "name: repeated\nnews: number in place of boolean\nmotto: repeated\naddress.town: number in place of text\nend: number in place of null\n",
    ),
    (
        "{\"\":1,\"a.b\":2,\"[0]\":3,\"__proto__\":{},\"Name\":\"Al\",\"name\":\"Ada\",\"news\":true,\"address\":{\"town\":\"Ulm\"},\"end\":null,\"\":1}",
        ": unknown\na.b: unknown\n[0]: unknown\n__proto__: unknown\nName: unknown\n: unknown\n",
    ),
    (
        "{\"z\":0,\"name\":\"Al\",\"news\":{},\"address\":{},\"end\":null,\"a\":0}",
        "name: too short\nnews: object in place of boolean\naddress.town: missing\nz: unknown\na: unknown\n",
    ),
];

#[test]
fn tells_every_fault_of_form_and_of_rules(rt: HostRuntime) {
    for (body, expected) in BODIES {
        check(&rt, rt.alloc(), &Person, body.as_bytes(), expected);
    }
}

// An object of ten thousand members, none of which is known, behind the known ones, and its report.
static UNKNOWN: (Long, Long) = (
    Long::Numbered(
        "{\"name\":\"Ada\",\"news\":true,\"address\":{\"town\":\"Bern\"},\"end\":null,\"k0",
        (1, 10_000),
        ("\":0,\"k", ""),
        "\":0}",
    ),
    Long::Numbered("k0", (1, 10_000), (": unknown\nk", ""), ": unknown\n"),
);

#[test]
fn tells_each_of_many_unknown_members(rt: HostRuntime) {
    let (body, told) = &UNKNOWN;
    assert!(rt; is_told(rt.alloc(), &Person, body, told));
}

// A fault of form, its text, and its text with a code.
static FAULTS: [(FormFault, &str, &str); 8] = [
    (
        FormFault::Wrong(Wanted::Whole, Kind::List),
        "list in place of whole number",
        "\u{1f}wrong_form\u{1f}list in place of whole number\u{1f}wanted\u{1f}Whole\u{1f}found\u{1f}List\u{1f}",
    ),
    (
        FormFault::Wrong(Wanted::OneMember, Kind::Object),
        "object in place of object with one member",
        "\u{1f}wrong_form\u{1f}object in place of object with one member\u{1f}wanted\u{1f}OneMember\u{1f}found\u{1f}Object\u{1f}",
    ),
    (
        FormFault::OutOfRange(Integer::U8),
        "out of range",
        "\u{1f}out_of_range\u{1f}out of range\u{1f}of\u{1f}u8\u{1f}",
    ),
    (
        FormFault::Missing,
        "missing",
        "\u{1f}member_missing\u{1f}missing\u{1f}",
    ),
    (
        FormFault::Repeated,
        "repeated",
        "\u{1f}member_repeated\u{1f}repeated\u{1f}",
    ),
    (
        FormFault::Unknown,
        "unknown",
        "\u{1f}member_unknown\u{1f}unknown\u{1f}",
    ),
    (
        FormFault::NotOneOf,
        "not one of these",
        "\u{1f}value_unknown\u{1f}not one of these\u{1f}",
    ),
    (
        FormFault::RowLength,
        "another number of fields",
        "\u{1f}row_length\u{1f}another number of fields\u{1f}",
    ),
];

#[test]
fn gives_each_fault_of_form_its_text(rt: HostRuntime) {
    let (plain, coded) = (Texts(DefaultI18n), WithCodes(Texts(DefaultI18n)));
    for (fault, expected, with_code) in &FAULTS {
        assert!(rt;
            is_handed(plain.form_fault(rt.alloc(), *fault), expected)
                && is_handed(coded.form_fault(rt.alloc(), *fault), with_code),
            "{expected}"
        );
    }
}
