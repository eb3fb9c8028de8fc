//! Maps and a set: values under keys that are texts or numbers.
ghost use Rattle.garde.specs.Fields.{◌and◌, ascii, at_most, between, bytes, each, each_value, field, index_part, is, items, range, signed_index_part, str, text_key};

use garde::fields::{Ascii, Each, Field, Fields, Is};
use garde::{I18n, Report, Stated, Trail, Validate, length, range};
use std::alloc::AllocError;
use std::collections::{BTreeMap, BTreeSet};

/// What a store has: the number of pieces by the name of an article, the shelves by their numbers,
/// the floors, of which some lie below the street, and marks.
#[derive(Drop)]
pub struct Stock {
    pub pieces: BTreeMap<String, u32>,
    pub shelves: BTreeMap<u32, String>,
    pub floors: BTreeMap<i8, String>,
    pub marks: BTreeSet<String>,
}

impl Stated for Stock {
    type Context = ();

    ghost visits = { λ v _.
        field "pieces" (is (items (between 1 100) v.pieces.entries) and each_value text_key (λ count. is (range (between 1 999) count)) v.pieces.entries)
        and field "shelves" (is (items (between 1 9) v.shelves.entries) and each_value index_part (λ name. is (ascii (str name))) v.shelves.entries)
        and field "floors" (each_value signed_index_part (λ name. is (bytes (at_most 20) (str name))) v.floors.entries)
        and field "marks" (is (items (at_most 9) v.marks.keys) and each (λ mark. is (bytes (at_most 8) (str mark))) v.marks.keys) };
}

impl Validate for Stock {
    fn validate_into<'a, H: I18n>(
        &'a self,
        _ctx: &(),
        trail: &mut Trail<'a>,
        report: &mut Report,
        h: &H,
    ) -> Result<(), AllocError> {
        let Self {
            pieces,
            shelves,
            floors,
            marks,
        } = self;
        let counts = Each(Is(range!(min = 1, max = 999)));
        (
            Field("pieces", pieces, (Is(length!(min = 1, max = 100)), counts)),
            Field(
                "shelves",
                shelves,
                (Is(length!(min = 1, max = 9)), Each(Is(Ascii))),
            ),
            Field("floors", floors, Each(Is(length!(max = 20)))),
            Field(
                "marks",
                marks,
                (Is(length!(max = 9)), Each(Is(length!(max = 8)))),
            ),
        )
            .visit(trail, report, h)
    }
}
