//! Objects with any names: the whole report of each body, or its pairs in order.

use super::told::told;
use garde::fields::{Alphanumeric, Ascii, Is};
use garde::{length, range};
use garde_schema::{Flag, Keys, List, Map, MapUnder, Member, Object, Text, U8, U16, Whole};
use garde_tape::Tree;
use std::alloc::{AllocError, Global};

/// The forms of this module.
pub enum Case {
    Labels,
    FewLabels,
    Named,
    Many,
    Numbers,
    Nested,
}

/// The value of a tree of this form, as text, or its report.
pub fn told_by(alloc: Global, tree: &Tree<'_, '_>, case: &Case) -> Result<String, AllocError> {
    match case {
        // An object with labels.
        Case::Labels => {
            let label = Text((Is(Ascii), Is(length!(max = 3))));
            let form = Object((Member("labels", Map(label)), Member("end", Flag)));
            told(alloc, tree, &form)
        }
        // An object of one or two labels.
        Case::FewLabels => {
            let form = MapUnder(Is(length!(min = 1, max = 2)), Text(Is(Ascii)));
            told(alloc, tree, &form)
        }
        // An object of one or two numbers under short names of letters and digits.
        Case::Named => {
            let numbers = MapUnder(Is(length!(max = 2)), Whole(U8, Is(range!(max = 9))));
            let form = Keys(numbers, (Is(Alphanumeric), Is(length!(max = 3))));
            told(alloc, tree, &form)
        }
        Case::Many => many(alloc, tree),
        Case::Numbers => told(alloc, tree, &Map(Whole(U16, ()))),
        Case::Nested => told(alloc, tree, &Map(List(Map(Map(Whole(U8, ())))))),
    }
}

// Numbers under rules of how many there are, and of their names.
fn many(alloc: Global, tree: &Tree<'_, '_>) -> Result<String, AllocError> {
    let (few, plain, short) = (Is(length!(max = 1)), Is(Alphanumeric), Is(length!(max = 1)));
    let five = Keys(MapUnder((few, few), Whole(U8, ())), (plain, short, plain));
    let six = Keys(
        MapUnder((few, few, few), Whole(U8, ())),
        (plain, plain, short),
    );
    let form = Object((Member("five", five), Member("six", six)));
    told(alloc, tree, &form)
}

/// Bodies, and what each reads as.
pub const LABELS: &[(&str, &str)] = &[
    ("{\"labels\":{},\"end\":true}", "(Items([]), true)"),
    (
        "{\"labels\":{\"b\":\"x\",\"\":\"y\",\"a.b\":\"\",\"[0]\":\"\\u007a\"},\"end\":true}",
        "(Items([(TextRef(\"b\"), TextRef(\"x\")), (TextRef(\"\"), TextRef(\"y\")), (TextRef(\"a.b\"), TextRef(\"\")), (TextRef(\"[0]\"), TextRef(\"z\"))]), true)",
    ),
    ("{\"labels\":[],\"end\":true}", "labels: not an object\n"),
    (
        "{\"labels\":null,\"end\":1}",
        "labels: not an object\nend: not true or false\n",
    ),
    (
        "{\"labels\":{\"a\":\"x\",\"b\":1,\"c\":\"abcd\",\"d\":{}},\"end\":0}",
        "labels.b: not a text\nlabels.c: length is greater than 3\nlabels.d: not a text\nend: not true or false\n",
    ),
    (
        "{\"labels\":{\"a\":\"x\",\"a\":\"y\"},\"end\":true}",
        "labels.a: repeated\n",
    ),
    (
        "{\"labels\":{\"a\":1,\"b\":\"\u{e9}\",\"\\u0061\":\"abcd\",\"c\":\"x\",\"b\":2,\"a\":3,\"e\":4},\"end\":true}",
        "labels.a: not a text\nlabels.b: not ascii\nlabels.a: repeated\nlabels.b: repeated\nlabels.a: repeated\nlabels.e: not a text\n",
    ),
];

/// Bodies, and what each reads as.
pub const FEW_LABELS: &[(&str, &str)] = &[
    (
        "{\"b\":\"x\",\"a\":\"\"}",
        "Items([(TextRef(\"b\"), TextRef(\"x\")), (TextRef(\"a\"), TextRef(\"\"))])",
    ),
    ("{}", "length is lower than 1\n"),
    (
        "{\"a\":1,\"b\":\"\u{e9}\",\"c\":\"x\"}",
        "length is greater than 2\na: not a text\nb: not ascii\n",
    ),
    ("{\"a\":\"x\",\"a\":1}", "a: repeated\n"),
    (
        "{\"a\":\"x\",\"a\":1,\"a\":2}",
        "length is greater than 2\na: repeated\na: repeated\n",
    ),
    ("[\"x\"]", "not an object\n"),
    ("null", "not an object\n"),
];

/// Bodies, and what each reads as.
pub const NAMED: &[(&str, &str)] = &[
    ("{}", "Items([])"),
    (
        "{\"b2\":1,\"\":9}",
        "Items([(TextRef(\"b2\"), 1), (TextRef(\"\"), 9)])",
    ),
    ("{\"a\":1,\"a-b\":2}", "a-b: not alphanumeric\n"),
    (
        "{\"a-bc\":10,\"abcd\":1}",
        "a-bc: greater than 9\na-bc: not alphanumeric\na-bc: length is greater than 3\nabcd: length is greater than 3\n",
    ),
    (
        "{\"a\":1,\"b\":2,\"\\u0063-\":3}",
        "length is greater than 2\nc-: not alphanumeric\n",
    ),
    ("{\"a-b\":1,\"a-b\":2}", "a-b: repeated\n"),
    ("{\"a-b\":null}", "a-b: not a whole number\n"),
    ("[\"a-b\"]", "not an object\n"),
];

/// Bodies, and what each reads as.
pub const MANY: &[(&str, &str)] = &[
    (
        "{\"five\":{\"a\":1},\"six\":{\"b\":2}}",
        "(Items([(TextRef(\"a\"), 1)]), Items([(TextRef(\"b\"), 2)]))",
    ),
    (
        "{\"five\":{\"a\":1,\"b-\":2},\"six\":{\"a\":1,\"b-\":2}}",
        "five: length is greater than 1\nfive: length is greater than 1\nfive.b-: not alphanumeric\nfive.b-: length is greater than 1\nfive.b-: not alphanumeric\nsix: length is greater than 1\nsix: length is greater than 1\nsix: length is greater than 1\nsix.b-: not alphanumeric\nsix.b-: not alphanumeric\nsix.b-: length is greater than 1\n",
    ),
];

/// Bodies, and what each reads as.
pub const NESTED: &[(&str, &str)] = &[
    (
        "{\"a\":[{\"b\":{\"c\":1}}],\"d\":[]}",
        "Items([(TextRef(\"a\"), Items([Items([(TextRef(\"b\"), Items([(TextRef(\"c\"), 1)]))])])), (TextRef(\"d\"), Items([]))])",
    ),
    (
        "{\"a\":[{},{\"b\":{\"c\":1,\"c\":2,\"d\":256},\"e\":[]}],\"f\":{}}",
        "a[1].b.c: repeated\na[1].b.d: out of range: 0 to 255\na[1].e: not an object\nf: not a list\n",
    ),
];
