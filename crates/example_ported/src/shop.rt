//! Collections: how many items there are, and rules of each.
ghost use Rattle.garde.specs.Fields.{◌and◌, alphanumeric, ascii, at_least, at_most, between, bytes, each, each_value, exactly, field, index_part, is, items, range, slice, str, text_key};

use garde::fields::{Alphanumeric, Ascii, Each, Field, Fields, Is};
use garde::{I18n, Report, Stated, Trail, Validate, length, range};
use std::alloc::AllocError;
use std::collections::{BTreeMap, BTreeSet};

/// What a shop has.
#[derive(Drop)]
pub struct Shop {
    pub names: Vec<String>,
    pub pieces: BTreeMap<String, u32>,
    pub shelves: BTreeMap<usize, String>,
    pub marks: BTreeSet<String>,
    pub rows: Vec<Vec<String>>,
}

impl Stated for Shop {
    type Context = ();

    ghost visits = { λ v _.
        field "names" (is (items (between 1 3) (slice v.names)) and each (λ x. is (ascii (str x)) and is (bytes (at_least 2) (str x))) (slice v.names))
        and field "pieces" (is (items (at_most 2) v.pieces.entries) and each_value text_key (λ x. is (range (between 1 999) x)) v.pieces.entries)
        and field "shelves" (each_value index_part (λ x. is (alphanumeric (str x))) v.shelves.entries)
        and field "marks" (is (items (at_least 1) v.marks.keys) and each (λ x. is (bytes (at_most 8) (str x))) v.marks.keys)
        and field "rows" (each (λ x. is (items (at_least 1) (slice x)) and each (λ y. is (ascii (str y)) and is (bytes (exactly 1) (str y))) (slice x)) (slice v.rows)) };
}

impl Validate for Shop {
    fn validate_into<'a, H: I18n>(
        &'a self,
        _ctx: &(),
        trail: &mut Trail<'a>,
        report: &mut Report,
        h: &H,
    ) -> Result<(), AllocError> {
        let Self {
            names,
            pieces,
            shelves,
            marks,
            rows,
        } = self;
        (
            Field(
                "names",
                names,
                (
                    Is(length!(min = 1, max = 3)),
                    Each((Is(Ascii), Is(length!(min = 2)))),
                ),
            ),
            Field(
                "pieces",
                pieces,
                (Is(length!(max = 2)), Each(Is(range!(min = 1, max = 999)))),
            ),
            Field("shelves", shelves, Each(Is(Alphanumeric))),
            Field(
                "marks",
                marks,
                (Is(length!(min = 1)), Each(Is(length!(max = 8)))),
            ),
            Field(
                "rows",
                rows,
                Each((
                    Is(length!(min = 1)),
                    Each((Is(Ascii), Is(length!(equal = 1)))),
                )),
            ),
        )
            .visit(trail, report, h)
    }
}
