//! Texts that stand for values: the whole report of each body in English and as codes, or its value.

use super::told::told_with;
use garde::I18n;
use garde_schema::{FormI18n, Member, Object, OneOf, Optional};
use garde_tape::Tree;
use std::alloc::{AllocError, Global};

#[derive(Clone, Copy, Debug, Drop)]
enum Delivery {
    Counter,
    Post,
    Drone,
}

/// An order, whose delivery is one of three by four names, and which may have a number of stars.
pub fn order<H: I18n + FormI18n>(
    alloc: Global,
    tree: &Tree<'_, '_>,
    h: &H,
) -> Result<String, AllocError> {
    let form = Object((
        Member(
            "delivery",
            OneOf(&[
                ("counter", Delivery::Counter),
                ("post", Delivery::Post),
                ("", Delivery::Drone),
                ("post", Delivery::Drone),
                ("delivered by a drone, to the roof", Delivery::Drone),
            ]),
        ),
        Optional("stars", OneOf(&[("one", 1_u8), ("two", 2), ("three", 3)])),
    ));
    told_with(alloc, tree, &form, h)
}

/// Bodies, and what each reads as, in English and as codes.
pub const ORDERS: &[(&str, &str, &str)] = &[
    (
        "{\"delivery\":\"counter\"}",
        "(Counter, None)",
        "(Counter, None)",
    ),
    (
        "{\"delivery\":\"post\",\"stars\":\"three\"}",
        "(Post, Some(3))",
        "(Post, Some(3))",
    ),
    (
        "{\"delivery\":\"\",\"stars\":\"one\"}",
        "(Drone, Some(1))",
        "(Drone, Some(1))",
    ),
    (
        "{\"stars\":\"two\",\"delivery\":\"delivered by a drone, to the roof\"}",
        "(Drone, Some(2))",
        "(Drone, Some(2))",
    ),
    (
        "{\"delivery\":\"\\u0070ost\"}",
        "(Post, None)",
        "(Post, None)",
    ),
    (
        "{\"delivery\":\"Post\",\"stars\":\"four\"}",
        "delivery: not one of the known values\nstars: not one of the known values\n",
        "delivery: value_unknown\nstars: value_unknown\n",
    ),
    (
        "{\"delivery\":\"delivered by a drone, to the roo\",\"stars\":3}",
        "delivery: not one of the known values\nstars: not a text\n",
        "delivery: value_unknown\nstars: wrong_form wanted=Text found=Number\n",
    ),
    (
        "{\"delivery\":[\"post\"],\"stars\":null}",
        "delivery: not a text\nstars: not a text\n",
        "delivery: wrong_form wanted=Text found=List\nstars: wrong_form wanted=Text found=Null\n",
    ),
    (
        "{\"stars\":\" one\"}",
        "delivery: missing\nstars: not one of the known values\n",
        "delivery: member_missing\nstars: value_unknown\n",
    ),
];
