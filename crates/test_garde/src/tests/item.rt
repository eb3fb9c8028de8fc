//! A type with a list of parts.
ghost use Rattle.garde.specs.Fields.{◌and◌, ascii, at_least, at_most, bytes, each, field, is, range, slice, str};

use garde::fields::{Ascii, Dive, Each, Field, Fields, Is, Length, Range};
use garde::{I18n, Report, Stated, Trail, Validate};
use std::alloc::AllocError;

/// A number of at most 4, under the key `id`.
#[derive(Clone, Copy)]
pub struct Identifier {
    pub id: u64,
}

impl Stated for Identifier {
    type Context = ();

    ghost visits = { λ v _. field "id" (is (range (at_most 4) v.id)) };
}

impl Validate for Identifier {
    fn validate_into<'a, H: I18n>(
        &'a self,
        _ctx: &(),
        trail: &mut Trail<'a>,
        report: &mut Report,
        h: &H,
    ) -> Result<(), AllocError> {
        let Self { id } = self;
        Field(
            "id",
            id,
            Is(Range {
                min: None,
                max: Some(4),
            }),
        )
        .visit(trail, report, h)
    }
}

/// A name of 10 bytes of ASCII at least, and numbers.
#[derive(Drop)]
pub struct Item {
    pub name: String,
    pub identifiers: Vec<Identifier>,
}

impl Stated for Item {
    type Context = ();

    ghost visits = { λ v c.
        field "name" (is (ascii (str v.name)) and is (bytes (at_least 10) (str v.name)))
        and field "identifiers" (each (λ part. ⟦<Identifier as Stated>⟧.visits part c) (slice v.identifiers)) };
}

impl Validate for Item {
    fn validate_into<'a, H: I18n>(
        &'a self,
        ctx: &(),
        trail: &mut Trail<'a>,
        report: &mut Report,
        h: &H,
    ) -> Result<(), AllocError> {
        let Self { name, identifiers } = self;
        let plain = (
            Is(Ascii),
            Is(Length {
                min: 10,
                max: usize::MAX,
            }),
        );
        (
            Field("name", name, plain),
            Field("identifiers", identifiers, Each(Dive(ctx))),
        )
            .visit(trail, report, h)
    }
}
