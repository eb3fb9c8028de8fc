//! Lists: the whole report of each body, or its values in order.

use super::OrEnd;
use super::long_text::Long;
use super::told::told;
use garde::fields::{Ascii, Is};
use garde::{DefaultI18n, length, range};
use garde_schema::{
    Closed, Flag, InOrder, List, ListUnder, Member, Nth, Object, Optional, Scratch, Text, U8, U16,
    Whole, read_json,
};
use garde_tape::Tree;
use std::alloc::{AllocError, Global};

/// The forms of this module.
pub enum Case {
    Tags,
    Few,
    Numbers,
    Deep,
    Pair,
}

/// The value of a tree of this form, as text, or its report.
pub fn told_by(alloc: Global, tree: &Tree<'_, '_>, case: &Case) -> Result<String, AllocError> {
    match case {
        // An object with tags.
        Case::Tags => {
            let tag = Text((Is(Ascii), Is(length!(min = 1, max = 3))));
            let form = Object((Member("tags", List(tag)), Optional("end", Flag)));
            told(alloc, tree, &form)
        }
        // At most three small numbers.
        Case::Few => {
            let rules = (Is(length!(min = 1, max = 3)), Is(length!(max = 4)));
            let form = ListUnder(rules, Whole(U8, Is(range!(max = 9))));
            told(alloc, tree, &form)
        }
        Case::Numbers => told(alloc, tree, &List(Whole(U16, ()))),
        // Lists in a list, ten deep.
        Case::Deep => {
            let five = List(List(List(List(List(Whole(U8, ()))))));
            told(alloc, tree, &List(List(List(List(List(five))))))
        }
        // A number, and then an object without members.
        Case::Pair => {
            let pair = (Nth(0, Whole(U8, ())), Nth(1, Object(Closed(()))));
            told(alloc, tree, &InOrder(2, pair))
        }
    }
}

/// Bodies, and what each reads as.
pub const TAGS: &[(&str, &str)] = &[
    ("{\"tags\":[]}", "(Items([]), None)"),
    (
        "{\"tags\":[\"b\",\"a\",\"\\u0063\"]}",
        "(Items([TextRef(\"b\"), TextRef(\"a\"), TextRef(\"c\")]), None)",
    ),
    ("{\"tags\":null}", "tags: not a list\n"),
    ("{\"tags\":{\"0\":\"a\"}}", "tags: not a list\n"),
    (
        "{\"tags\":\"a\",\"end\":1}",
        "tags: not a list\nend: not true or false\n",
    ),
    ("{\"tags\":[\"a\",1,\"b\"]}", "tags[1]: not a text\n"),
    (
        "{\"tags\":[\"a\",[],\"\u{e9}\",\"abcd\",{\"a\":\"b\"},\"a\",\"\"],\"end\":0}",
        "tags[1]: not a text\ntags[2]: not ascii\ntags[3]: length is greater than 3\ntags[4]: not a text\ntags[6]: length is lower than 1\nend: not true or false\n",
    ),
    (
        "{\"tags\":[[\"a\"],[1],null]}",
        "tags[0]: not a text\ntags[1]: not a text\ntags[2]: not a text\n",
    ),
];

/// Bodies, and what each reads as.
pub const FEW: &[(&str, &str)] = &[
    ("[3]", "Items([3])"),
    ("[3,1,2]", "Items([3, 1, 2])"),
    ("[]", "length is lower than 1\n"),
    ("{}", "not a list\n"),
    ("3", "not a list\n"),
    (
        "[3,10,null]",
        "[1]: greater than 9\n[2]: not a whole number\n",
    ),
    ("[1,1,1,1]", "length is greater than 3\n"),
    (
        "[1,null,256,10,\"1\"]",
        "length is greater than 3\nlength is greater than 4\n[1]: not a whole number\n[2]: greater than 9\n[3]: greater than 9\n[4]: not a whole number\n",
    ),
];

/// Bodies, and what each reads as.
pub const DEEP: &[(&str, &str)] = &[
    (
        "[[[[[[[[[[1,2]]]]]]]]]]",
        "Items([Items([Items([Items([Items([Items([Items([Items([Items([Items([1, 2])])])])])])])])])])",
    ),
    ("[[],[[]]]", "Items([Items([]), Items([Items([])])])"),
    (
        "[[[[[[[[[[1,[]],2]]]]]]]],3]",
        "[0][0][0][0][0][0][0][0][0][1]: not a whole number\n[0][0][0][0][0][0][0][0][1]: not a list\n[1]: not a list\n",
    ),
];

/// Bodies, and what each reads as.
pub const PAIR: &[(&str, &str)] = &[
    ("[7,{}]", "(7, ())"),
    ("[]", "[0]: missing\n[1]: missing\n"),
    ("[7]", "[1]: missing\n"),
    ("[7,{},0,0]", "[2]: not known here\n"),
    (
        "[256,{\"a\":1}]",
        "[0]: out of range: 0 to 255\n[1].a: not known here\n",
    ),
    (
        "[{},7,8]",
        "[0]: not a whole number\n[1]: not an object\n[2]: not known here\n",
    ),
    ("{\"0\":7,\"1\":{}}", "not a list\n"),
];

// A list of the numbers from 0 to 299.
static NUMBERS: Long = Long::Numbered("[0", (1, 300), (",", ""), "]");

// Whether each number is the one of its place.
fn are_in_order(numbers: &[u16]) -> bool {
    for (i, number) in numbers.iter().enumerate() {
        if usize::from(*number) != i {
            return false;
        }
    }
    true
}

// Whether a list has the three hundred numbers from 0 on, in their order.
fn are_three_hundred(alloc: Global, body: &str) -> bool {
    let mut scratch = Scratch::new(alloc);
    let form = List(Whole(U16, ()));
    match read_json(alloc, body.as_bytes(), &mut scratch, &form, &DefaultI18n) {
        Ok(items) => {
            items.len() == 300
                && !items.is_empty()
                && items.as_slice().last().copied() == Some(299)
                && are_in_order(items.into_vec().as_slice())
        }
        Err(_) => false,
    }
}

#[test]
fn reads_three_hundred_items_in_order(rt: HostRuntime) {
    let body = NUMBERS.text(rt.alloc()).or_end(&rt);
    assert!(rt; are_three_hundred(rt.alloc(), body.as_str()));
}
