//! Objects that hold objects of the same form: the whole report of each body, or its value.
ghost use Rattle.std.specs.Prelude.{◌≡◌};
ghost use Rattle.std.proofs.Common.{rules};
ghost use Rattle.test_schema.specs.declared.tests.nested.Folder.{out-Folder, roll-Folder, the_lemmas};

use super::OrEnd;
use super::long_text::Long;
use super::told::{Case as Form, told, told_of};
use garde::fields::{Ascii, Is};
use garde::{length, range};
use garde_schema::{
    Closed, FromNested, Items, Member, Members, Nested, Optional, Text, TextRef, U16, Whole, laws,
};
use garde_tape::Tree;
use std::alloc::{AllocError, Global};
use std::marker::PhantomData;

/// The forms of this module.
pub enum Case {
    Closed,
    Open,
}

/// The value of a tree of this form, as text, or its report.
pub fn told_by(alloc: Global, tree: &Tree<'_, '_>, case: &Case) -> Result<String, AllocError> {
    match case {
        Case::Closed => {
            let members = (
                Member("name", Text((Is(Ascii), Is(length!(min = 1, max = 9))))),
                Optional("size", Whole(U16, Is(range!(max = 1000)))),
            );
            let form = Closed(Nested("folders", members, PhantomData::<&Folder<'_>>));
            told(alloc, tree, &form)
        }
        Case::Open => {
            let members = (Member("name", Text(())), Optional("size", Whole(U16, ())));
            let form = Nested("folders", members, PhantomData::<&Folder<'_>>);
            leaves_none_out(&form);
            told(alloc, tree, &form)
        }
    }
}

// A folder, and the folders in it.
#[derive(Debug, Drop)]
struct Folder<'a> {
    name: TextRef<'a>,
    size: Option<u16>,
    folders: Items<Folder<'a>>,
}

impl<'a> FromNested for Folder<'a> {
    type Own = (TextRef<'a>, Option<u16>);

    ghost builds = { λ own below.
        roll-Folder (record { name = own.0; size = own.1; folders = below }) };

    ghost parts_of = { λ folder.
        (((out-Folder folder).name, (out-Folder folder).size), (out-Folder folder).folders) };

    fn from_nested(own: (TextRef<'a>, Option<u16>), below: Items<Folder<'a>>) -> Folder<'a>
        ensures { result ≡ roll-Folder
            (record { name = own.entry.0; size = own.entry.1; folders = below.entry }) }
    {
        let (name, size) = own;
        Folder {
            name,
            size,
            folders: below,
        }
    }

    ghost kept = { λ _ _. Prim.search (rules, the_lemmas) };
}

/// Bodies, and what each reads as.
pub const CLOSED: &[(&str, &str)] = &[
    (
        "{\"name\":\"a\",\"folders\":[]}",
        "Folder { name: TextRef(\"a\"), size: None, folders: Items([]) }",
    ),
    (
        "{\"folders\":[{\"name\":\"b\",\"size\":1,\"folders\":[]},{\"name\":\"c\",\"folders\":[{\"folders\":[],\"name\":\"d\",\"size\":2}]}],\"size\":3,\"name\":\"a\"}",
        "Folder { name: TextRef(\"a\"), size: Some(3), folders: Items([Folder { name: TextRef(\"b\"), size: Some(1), folders: Items([]) }, Folder { name: TextRef(\"c\"), size: None, folders: Items([Folder { name: TextRef(\"d\"), size: Some(2), folders: Items([]) }]) }]) }",
    ),
    (
        "{\"name\":\"\",\"x\":0,\"folders\":[{\"name\":\"b\",\"size\":1001,\"folders\":[{\"name\":\"\u{e9}\",\"size\":-1,\"folders\":[]},7]},{\"y\":0,\"name\":\"c\",\"folders\":{}}],\"z\":0}",
        "name: length is lower than 1\nfolders[0].size: greater than 1000\nfolders[0].folders[0].name: not ascii\nfolders[0].folders[0].size: out of range: 0 to 65535\nfolders[0].folders[1]: not an object\nfolders[1].folders: not a list\nfolders[1].y: not known here\nx: not known here\nz: not known here\n",
    ),
    ("{}", "name: missing\nfolders: missing\n"),
    (
        "{\"folders\":[{}],\"name\":\"a\"}",
        "folders[0].name: missing\nfolders[0].folders: missing\n",
    ),
    (
        "{\"folders\":[1],\"name\":\"a\",\"folders\":[{}],\"name\":\"b\"}",
        "name: repeated\nfolders: repeated\n",
    ),
    (
        "{\"name\":1,\"folders\":[{\"name\":2,\"folders\":[{\"name\":3,\"folders\":[{\"name\":4,\"folders\":4}]}]}]}",
        "name: not a text\nfolders[0].name: not a text\nfolders[0].folders[0].name: not a text\nfolders[0].folders[0].folders[0].name: not a text\nfolders[0].folders[0].folders[0].folders: not a list\n",
    ),
    ("null", "not an object\n"),
    ("\"a\"", "not an object\n"),
    ("[]", "not an object\n"),
    (
        "{\"name\":null,\"size\":null,\"folders\":null}",
        "name: not a text\nsize: not a whole number\nfolders: not a list\n",
    ),
    (
        "{\"name\":[],\"size\":\"1\",\"folders\":\"\"}",
        "name: not a text\nsize: not a whole number\nfolders: not a list\n",
    ),
    (
        "{\"name\":\"a\",\"folders\":[null,\"b\",[{}],{\"name\":\"c\",\"folders\":[null,\"d\",[],{\"name\":\"e\",\"folders\":null}]}]}",
        "folders[0]: not an object\nfolders[1]: not an object\nfolders[2]: not an object\nfolders[3].folders[0]: not an object\nfolders[3].folders[1]: not an object\nfolders[3].folders[2]: not an object\nfolders[3].folders[3].folders: not a list\n",
    ),
];

// Calls the law of objects in objects for this form.
fn leaves_none_out<'a, T: FromNested, M: Members<'a, Out = T::Own>>(_form: &Nested<'a, M, T>) {
    laws::nested_objects::<'a, T, M>();
}

/// Bodies, and what each reads as.
pub const OPEN: &[(&str, &str)] = &[
    (
        "{\"x\":1,\"name\":\"a\",\"folders\":[{\"name\":\"\",\"y\":[],\"folders\":[]}]}",
        "Folder { name: TextRef(\"a\"), size: None, folders: Items([Folder { name: TextRef(\"\"), size: None, folders: Items([]) }]) }",
    ),
    (
        "{\"x\":1,\"name\":0,\"folders\":[{\"y\":[],\"folders\":[]}]}",
        "name: not a text\nfolders[0].name: missing\n",
    ),
];

// Folders, each in the one before, and each with a number for its name.
static SIXTY: Long = Long::Repeated("", (60, "{\"name\":1,\"folders\":["), "", (60, "]}"), "");

// Whether there are sixty lines, each of which is the fault of a folder below the one before.
fn has_a_fault_at_each_depth(told: &str) -> bool {
    let mut right = told.lines().count() == 60;
    for (depth, line) in told.lines().enumerate() {
        right = right
            && line.matches("folders[0].").count() == depth
            && line.ends_with("name: not a text");
    }
    right
}

#[test]
fn tells_a_fault_of_each_folder_of_sixty(rt: HostRuntime) {
    let body = SIXTY.text(rt.alloc()).or_end(&rt);
    let bytes = body.as_str().as_bytes();
    let read = told_of(rt.alloc(), &Form::Nested(Case::Closed), bytes);
    assert!(rt; has_a_fault_at_each_depth(read.or_end(&rt).as_str()));
}
