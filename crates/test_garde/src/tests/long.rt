//! One text under one rule.
ghost use Rattle.garde.specs.Fields.{at_least, bytes, field, is, str};

use garde::fields::{Field, Fields, Is, Length};
use garde::{I18n, Report, Stated, Trail, Validate};
use std::alloc::AllocError;

/// A text of 5 bytes at least, under the key `s`.
#[derive(Drop)]
pub struct Long {
    pub s: String,
}

impl Stated for Long {
    type Context = ();

    ghost visits = { λ v _. field "s" (is (bytes (at_least 5) (str v.s))) };
}

impl Validate for Long {
    fn validate_into<'a, H: I18n>(
        &'a self,
        _ctx: &(),
        trail: &mut Trail<'a>,
        report: &mut Report,
        h: &H,
    ) -> Result<(), AllocError> {
        let Self { s } = self;
        Field(
            "s",
            s,
            Is(Length {
                min: 5,
                max: usize::MAX,
            }),
        )
        .visit(trail, report, h)
    }
}
