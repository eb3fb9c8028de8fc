//! A value that borrows its texts.
ghost use Rattle.garde.specs.Fields.{◌and◌, ascii, between, bytes, each, field, is, length};

use garde::fields::{Ascii, Each, Field, Fields, Is};
use garde::{I18n, Report, Stated, Trail, Validate, length};
use std::alloc::AllocError;

/// A name, and other names for the same.
#[derive(Clone, Copy)]
pub struct Tag<'t> {
    pub name: &'t str,
    pub also: &'t [&'t str],
}

impl<'t> Stated for Tag<'t> {
    type Context = ();

    ghost visits = { λ v _.
        field "name" (is (ascii v.name.now) and is (bytes (between 1 9) v.name.now))
        and field "also" (each (λ name. is (ascii name.now)) v.also.now) };
}

impl<'t> Validate for Tag<'t> {
    fn validate_into<'a, H: I18n>(
        &'a self,
        _ctx: &(),
        trail: &mut Trail<'a>,
        report: &mut Report,
        h: &H,
    ) -> Result<(), AllocError> {
        let Self { name, also } = self;
        (
            Field("name", name, (Is(Ascii), Is(length!(min = 1, max = 9)))),
            Field("also", also, Each(Is(Ascii))),
        )
            .visit_of(self, trail, report, h)
    }
}
