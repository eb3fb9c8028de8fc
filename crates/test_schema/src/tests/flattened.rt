//! Forms that are used at several places, and members of one type among those of another one.
ghost use Rattle.std.specs.Prelude.{refl};

use super::told::told;
use garde::fields::{Is, Prefix};
use garde::range;
use garde_schema::{
    Built, Closed, FromParts, IfAny, List, Member, Nullish, Object, Optional, Rest, Text, TextRef,
    U8, Whole,
};
use garde_tape::Tree;
use std::alloc::{AllocError, Global};
use std::marker::PhantomData;

/// The forms of this module.
pub enum Case {
    Lent,
    Closed,
    Rest,
}

// A place.
#[derive(Debug, Drop)]
struct Place<'a> {
    street: TextRef<'a>,
    floor: Option<u8>,
}

impl<'a> FromParts for Place<'a> {
    type Parts = (TextRef<'a>, Option<u8>);

    ghost builds = { λ parts. record { street = parts.0; floor = parts.1 } };

    ghost parts_of = { λ place. (place.street, place.floor) };

    ghost kept = { λ _. refl };

    fn from_parts(parts: (TextRef<'a>, Option<u8>)) -> Place<'a> {
        let (street, floor) = parts;
        Place { street, floor }
    }
}

/// The value of a tree of this form, as text, or its report.
pub fn told_by(alloc: Global, tree: &Tree<'_, '_>, case: &Case) -> Result<String, AllocError> {
    let street = Member("street", Text(Is(Prefix("S"))));
    let floor = Optional("floor", Whole(U8, Is(range!(max = 9))));
    let members = Built((street, floor), PhantomData::<&Place<'_>>);
    match case {
        // The form of a place at three members.
        Case::Lent => {
            let place = Object(members);
            let places = (
                Member("from", &place),
                Nullish("to", &place),
                Member("by", List(&place)),
            );
            told(alloc, tree, &Object(places))
        }
        // A name beside the members of a place, and no other.
        Case::Closed => {
            let all = (Member("name", Text(())), members);
            told(alloc, tree, &Object(Closed(all)))
        }
        // A name, the members of a place or none of them, and members of any other name.
        Case::Rest => {
            let all = (Member("name", Text(())), IfAny(members));
            told(alloc, tree, &Object(Rest(all, Whole(U8, ()))))
        }
    }
}

/// Bodies, and what each reads as.
pub const LENT: &[(&str, &str)] = &[
    (
        "{\"from\":{\"street\":\"S\"},\"to\":null,\"by\":[{\"street\":\"S1\",\"floor\":1}]}",
        "(Place { street: TextRef(\"S\"), floor: None }, None, Items([Place { street: TextRef(\"S1\"), floor: Some(1) }]))",
    ),
    (
        "{\"from\":{\"street\":\"A\"},\"to\":{},\"by\":[{\"street\":\"S\",\"floor\":10}]}",
        "from.street: value does not begin with \"S\"\nto.street: missing\nby[0].floor: greater than 9\n",
    ),
];

/// Bodies, and what each reads as.
pub const CLOSED: &[(&str, &str)] = &[
    (
        "{\"floor\":2,\"name\":\"n\",\"street\":\"S\"}",
        "(TextRef(\"n\"), Place { street: TextRef(\"S\"), floor: Some(2) })",
    ),
    (
        "{\"floor\":-1,\"more\":0}",
        "name: missing\nstreet: missing\nfloor: out of range: 0 to 255\nmore: not known here\n",
    ),
];

/// Bodies, and what each reads as.
pub const REST: &[(&str, &str)] = &[
    (
        "{\"a\":1,\"name\":\"n\",\"b\":2}",
        "((TextRef(\"n\"), None), Items([(TextRef(\"a\"), 1), (TextRef(\"b\"), 2)]))",
    ),
    (
        "{\"street\":\"S\",\"name\":\"n\",\"name2\":3}",
        "((TextRef(\"n\"), Some(Place { street: TextRef(\"S\"), floor: None })), Items([(TextRef(\"name2\"), 3)]))",
    ),
    ("{\"floor\":3,\"name\":\"n\"}", "street: missing\n"),
    (
        "{\"a\":1,\"name\":\"n\",\"name\":\"m\",\"a\":\"\",\"b\":\"\"}",
        "name: repeated\na: repeated\nb: not a whole number\n",
    ),
];
