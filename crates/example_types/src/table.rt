//! Items in items, each level under rules of its own.
ghost use Rattle.garde.specs.Fields.{◌and◌, ascii, at_least, bytes, each, field, is, items, slice, str};

use garde::fields::{Ascii, Each, Field, Fields, Is};
use garde::{I18n, Report, Stated, Trail, Validate, length};
use std::alloc::AllocError;

/// Rows of one cell at least, each of ASCII and not empty.
#[derive(Drop)]
pub struct Table {
    pub rows: Vec<Vec<String>>,
}

impl Stated for Table {
    type Context = ();

    ghost visits = { λ v _. field "rows"
        (each (λ row. is (items (at_least 1) (slice row))
        and each (λ cell. is (ascii (str cell)) and is (bytes (at_least 1) (str cell))) (slice row)) (slice v.rows)) };
}

impl Validate for Table {
    fn validate_into<'a, H: I18n>(
        &'a self,
        _ctx: &(),
        trail: &mut Trail<'a>,
        report: &mut Report,
        h: &H,
    ) -> Result<(), AllocError> {
        let Self { rows } = self;
        let not_empty = Is(length!(min = 1));
        let cells = Each((Is(Ascii), not_empty));
        Field("rows", rows, Each((not_empty, cells))).visit(trail, report, h)
    }
}
