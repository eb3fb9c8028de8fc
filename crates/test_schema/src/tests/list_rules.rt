//! Lists under rules of their values, and of how many there are: the whole report of each body, or its
//! values in order.
ghost use Rattle.std.specs.Prelude.{bytes_eq, codes, nat_le};
ghost use Rattle.garde.specs.Fields.{asks, includes, is, required, when};

use super::told::told;
use garde::fields::{
    Ascii, Each, Equal, IfSome, Is, Required, Rule, Rules, Unique, When, includes,
};
use garde::{I18n, Report, RuleError, Trail, length};
use garde_schema::{
    Checked, Count, Flag, Items, List, ListUnder, Member, Object, Optional, Text, TextRef, U8,
    Under, Whole,
};
use garde_tape::Tree;
use std::alloc::{AllocError, Global};
use std::borrow::CowStr;

/// The forms of this module.
pub enum Case {
    Several,
    Apart,
    Many,
    Each,
    MaybeApart,
    Rush,
}

/// The value of a tree of this form, as text, or its report.
pub fn told_by(alloc: Global, tree: &Tree<'_, '_>, case: &Case) -> Result<String, AllocError> {
    match case {
        Case::Several => told(alloc, tree, &ListUnder(Is(Several), Whole(U8, ()))),
        // At most four texts, of which no two are the same.
        Case::Apart => {
            let texts = ListUnder(Is(length!(max = 4)), Text(Is(Ascii)));
            let form = Checked(texts, Unique("stands before", Equal));
            told(alloc, tree, &form)
        }
        Case::Many => many(alloc, tree),
        // Texts of two bytes at most, asked after all of them, unless there are two or more.
        Case::Each => {
            let never = When(false, Is(length!(max = 1)));
            let short = When(true, Each(Is(length!(max = 2))));
            let texts = ListUnder(&never, Text(Is(Ascii)));
            told(alloc, tree, &Checked(texts, &short))
        }
        // A list that may be missing, of texts that are all different.
        Case::MaybeApart => {
            let apart = Under("tags", IfSome(Unique("stands before", Equal)));
            let tags = Checked(Optional("tags", List(Text(()))), apart);
            told(alloc, tree, &Object((tags, Optional("end", Flag))))
        }
        // Tags, and a phone number that may be missing.
        Case::Rush => {
            let phone = Optional("phone", Whole(U8, ()));
            let members = (Member("tags", List(Text(()))), phone);
            let form = Object(Checked(members, Under("phone", PhoneForRush)));
            told(alloc, tree, &form)
        }
    }
}

// Lists of texts under rules of how many there are, and of the texts.
fn many(alloc: Global, tree: &Tree<'_, '_>) -> Result<String, AllocError> {
    let (few, short) = (Is(length!(max = 2)), Each(Is(length!(max = 1))));
    let apart = Unique("stands before", Equal);
    let five = ListUnder((few, few, Is(Several)), Text(()));
    let six = ListUnder((few, few, few, Is(Several)), Text(()));
    let form = Object((
        Member("five", Checked(five, (apart, short))),
        Member("six", Checked(six, (short, apart))),
    ));
    told(alloc, tree, &form)
}

// The rule that a list has two items or more.
#[derive(Clone, Copy)]
struct Several;

impl Rule<Count> for Several {
    ghost finds = { λ _ count. asks "alone" (nat_le 2 count) };

    fn find<H: I18n>(&self, alloc: Global, count: &Count, _h: &H) -> Result<(), RuleError> {
        if 2 <= count.get() {
            Ok(())
        } else {
            Err(RuleError::of(alloc, Ok(CowStr::Borrowed("alone"))))
        }
    }
}

// The rule that there is a phone number where the tags include `rush`.
#[derive(Clone, Copy)]
struct PhoneForRush;

impl<'t, P> Rules<(Items<TextRef<'t>>, Option<P>)> for PhoneForRush {
    ghost asks = { λ _ v. when (includes bytes_eq v.0 (codes "rush")) (is (required v.1)) };

    fn ask<'a, H: I18n>(
        &self,
        value: &(Items<TextRef<'t>>, Option<P>),
        trail: &mut Trail<'a>,
        report: &mut Report,
        h: &H,
    ) -> Result<(), AllocError> {
        let (tags, phone) = value;
        let is_rush = includes(tags.as_slice(), &Equal, &TextRef::new("rush"));
        When(is_rush, Is(Required)).ask(phone, trail, report, h)
    }
}

/// Bodies, and what each reads as.
pub const SEVERAL: &[(&str, &str)] = &[
    ("[]", "alone\n"),
    ("[-1]", "alone\n[0]: out of range: 0 to 255\n"),
    ("[2,1]", "Items([2, 1])"),
    ("[2,1,2]", "Items([2, 1, 2])"),
];

/// Bodies, and what each reads as.
pub const APART: &[(&str, &str)] = &[
    ("[]", "Items([])"),
    (
        "[\"a\",\"b\",\"\",\"A\"]",
        "Items([TextRef(\"a\"), TextRef(\"b\"), TextRef(\"\"), TextRef(\"A\")])",
    ),
    ("[\"a\",\"b\",\"a\"]", "[2]: stands before\n"),
    ("[\"a\",\"\\u0061\"]", "[1]: stands before\n"),
    (
        "[\"a\",\"a\",\"b\",\"a\",\"b\"]",
        "length is greater than 4\n[1]: stands before\n[3]: stands before\n[4]: stands before\n",
    ),
    (
        "[\"\u{e9}\",\"\u{e9}\"]",
        "[0]: not ascii\n[1]: not ascii\n[1]: stands before\n",
    ),
    ("[\"a\",1,\"a\"]", "[1]: not a text\n"),
    (
        "[\"a\",1,\"a\",\"a\",\"a\"]",
        "length is greater than 4\n[1]: not a text\n",
    ),
    ("{\"a\":\"a\"}", "not a list\n"),
];

/// Bodies, and what each reads as.
pub const MANY: &[(&str, &str)] = &[
    (
        "{\"five\":[\"a\",\"b\"],\"six\":[\"c\",\"\"]}",
        "(Items([TextRef(\"a\"), TextRef(\"b\")]), Items([TextRef(\"c\"), TextRef(\"\")]))",
    ),
    (
        "{\"five\":[\"ab\"],\"six\":[\"ab\"]}",
        "five: alone\nfive[0]: length is greater than 1\nsix: alone\nsix[0]: length is greater than 1\n",
    ),
    (
        "{\"five\":[\"a\",\"a\",\"bc\"],\"six\":[\"a\",\"a\",\"bc\"]}",
        "five: length is greater than 2\nfive: length is greater than 2\nfive[1]: stands before\nfive[2]: length is greater than 1\nsix: length is greater than 2\nsix: length is greater than 2\nsix: length is greater than 2\nsix[2]: length is greater than 1\nsix[1]: stands before\n",
    ),
];

/// Bodies, and what each reads as.
pub const EACH: &[(&str, &str)] = &[
    ("[\"ab\",\"c\"]", "Items([TextRef(\"ab\"), TextRef(\"c\")])"),
    (
        "[\"abc\",\"\u{e9}\",\"abc\"]",
        "[1]: not ascii\n[0]: length is greater than 2\n[2]: length is greater than 2\n",
    ),
    ("[\"abc\",null]", "[1]: not a text\n"),
];

/// Bodies, and what each reads as.
pub const MAYBE_APART: &[(&str, &str)] = &[
    ("{}", "(None, None)"),
    (
        "{\"tags\":[\"b\",\"a\"]}",
        "(Some(Items([TextRef(\"b\"), TextRef(\"a\")])), None)",
    ),
    ("{\"tags\":[\"a\",\"a\"]}", "tags[1]: stands before\n"),
    (
        "{\"tags\":[\"a\",\"b\",\"b\",\"a\"],\"end\":1}",
        "tags[2]: stands before\ntags[3]: stands before\nend: not true or false\n",
    ),
];

/// Bodies, and what each reads as.
pub const RUSH: &[(&str, &str)] = &[
    ("{\"tags\":[]}", "(Items([]), None)"),
    (
        "{\"tags\":[\"rus\",\"rush!\"]}",
        "(Items([TextRef(\"rus\"), TextRef(\"rush!\")]), None)",
    ),
    ("{\"tags\":[\"a\",\"rush\"]}", "phone: not set\n"),
    (
        "{\"tags\":[\"rush\"],\"phone\":7}",
        "(Items([TextRef(\"rush\")]), Some(7))",
    ),
    ("{\"tags\":[\"rush\",1]}", "tags[1]: not a text\n"),
];
