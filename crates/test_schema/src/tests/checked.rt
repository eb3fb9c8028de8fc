//! Values of user-defined types, and rules over several members.
ghost use Rattle.std.specs.Prelude.{nat_le, refl};
ghost use Rattle.garde.specs.Fields.{asks};

use super::told::told;
use garde::fields::{Ascii, Is, Prefix, Rule};
use garde::{I18n, RuleError, range};
use garde_schema::{
    Built, Checked, Closed, FromParts, List, Member, Object, Text, TextRef, U32, Under, Whole,
};
use garde_tape::Tree;
use std::alloc::{AllocError, Global};
use std::borrow::CowStr;
use std::marker::PhantomData;

/// The forms of this module.
pub enum Case {
    Lines,
    Span,
    Ends,
}

/// The value of a tree of this form, as text, or its report.
pub fn told_by(alloc: Global, tree: &Tree<'_, '_>, case: &Case) -> Result<String, AllocError> {
    match case {
        Case::Lines => {
            let line = Object(Closed((
                Member("code", Text(Is(Prefix("P")))),
                Member("count", Whole(U32, Is(range!(min = 1, max = 99)))),
                Member("cents", Whole(U32, Is(range!(max = 9999)))),
            )));
            let form = List(Built(line, PhantomData::<&Line<'_>>));
            told(alloc, tree, &form)
        }
        // A span and its name. The rule over both ends stands under the last of them.
        Case::Span => {
            let from = Member("from", Whole(U32, Is(range!(max = 100))));
            let ends = (from, Member("to", Whole(U32, ())));
            let span = Checked(ends, Under("to", Is(InOrder)));
            let form = Object(Closed((span, Member("name", Text(Is(Ascii))))));
            told(alloc, tree, &form)
        }
        // Both ends, by a rule on the object itself.
        Case::Ends => {
            let ends = Object((Member("from", Whole(U32, ())), Member("to", Whole(U32, ()))));
            told(alloc, tree, &Checked(ends, Is(InOrder)))
        }
    }
}

// So many pieces of an article, each at so many cents.
#[derive(Debug, Drop)]
struct Line<'a> {
    code: TextRef<'a>,
    count: u32,
    cents: u32,
}

impl<'a> FromParts for Line<'a> {
    type Parts = (TextRef<'a>, u32, u32);

    ghost builds = { λ parts. record { code = parts.0; count = parts.1; cents = parts.2 } };

    ghost parts_of = { λ line. (line.code, line.count, line.cents) };

    ghost kept = { λ _. refl };

    fn from_parts(parts: (TextRef<'a>, u32, u32)) -> Line<'a> {
        let (code, count, cents) = parts;
        Line { code, count, cents }
    }
}

/// Bodies, and what each reads as.
pub const LINES: &[(&str, &str)] = &[
    ("[]", "Items([])"),
    (
        "[{\"code\":\"P1\",\"count\":2,\"cents\":250},{\"cents\":0,\"count\":99,\"code\":\"P\"}]",
        "Items([Line { code: TextRef(\"P1\"), count: 2, cents: 250 }, Line { code: TextRef(\"P\"), count: 99, cents: 0 }])",
    ),
    (
        "[{\"code\":\"Q\",\"count\":0,\"cents\":10000},7,{\"code\":\"P\",\"count\":1}]",
        "[0].code: value does not begin with \"P\"\n[0].count: lower than 1\n[0].cents: greater than 9999\n[1]: not an object\n[2].cents: missing\n",
    ),
];

// The rule that the first number is at most the second.
#[derive(Clone, Copy)]
struct InOrder;

impl Rule<(u32, u32)> for InOrder {
    ghost finds = { λ _ ends. asks "not in order" (nat_le ends.0 ends.1) };

    fn find<H: I18n>(&self, alloc: Global, ends: &(u32, u32), _h: &H) -> Result<(), RuleError> {
        if ends.0 <= ends.1 {
            Ok(())
        } else {
            Err(RuleError::of(alloc, Ok(CowStr::Borrowed("not in order"))))
        }
    }
}

/// Bodies, and what each reads as.
pub const SPANS: &[(&str, &str)] = &[
    (
        "{\"from\":1,\"to\":2,\"name\":\"a\"}",
        "((1, 2), TextRef(\"a\"))",
    ),
    (
        "{\"from\":2,\"to\":2,\"name\":\"a\"}",
        "((2, 2), TextRef(\"a\"))",
    ),
    ("{\"from\":3,\"to\":2,\"name\":\"a\"}", "to: not in order\n"),
    (
        "{\"from\":300,\"to\":2,\"name\":\"\u{e9}\"}",
        "from: greater than 100\nto: not in order\nname: not ascii\n",
    ),
    (
        "{\"from\":3,\"to\":\"2\",\"name\":1}",
        "to: not a whole number\nname: not a text\n",
    ),
    (
        "{\"from\":3,\"name\":\"a\",\"z\":1}",
        "to: missing\nz: not known here\n",
    ),
];

/// Bodies, and what each reads as.
pub const ENDS: &[(&str, &str)] = &[
    ("{\"from\":1,\"to\":2}", "(1, 2)"),
    ("{\"from\":2,\"to\":1}", "not in order\n"),
    ("{\"from\":2}", "to: missing\n"),
    ("[2,1]", "not an object\n"),
];
