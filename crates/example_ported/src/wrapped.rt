//! New types, tuples, a type with a parameter, and a unit.
ghost use Rattle.garde.specs.Fields.{◌and◌, ascii, at_least, at_most, bytes, each, field, is, item, none, range, slice, str};

use garde::fields::{Ascii, Dive, Each, Field, Fields, Is, Item, Transparent};
use garde::{I18n, Report, Stated, Trail, Validate, length, range};
use std::alloc::AllocError;

/// A name that adds no component.
#[derive(Drop)]
pub struct Nickname(pub String);

impl Stated for Nickname {
    type Context = ();

    ghost visits = { λ v _. is (bytes (at_least 3) (str v.0)) };
}

impl Validate for Nickname {
    fn validate_into<'a, H: I18n>(
        &'a self,
        _ctx: &(),
        trail: &mut Trail<'a>,
        report: &mut Report,
        h: &H,
    ) -> Result<(), AllocError> {
        let Self(value) = self;
        Transparent(value, Is(length!(min = 3))).visit(trail, report, h)
    }
}

/// A code, of which both rules are asked where it stands.
#[derive(Drop)]
pub struct Code {
    pub text: String,
}

impl Stated for Code {
    type Context = ();

    ghost visits = { λ v _. is (ascii (str v.text)) and is (bytes (at_most 4) (str v.text)) };
}

impl Validate for Code {
    fn validate_into<'a, H: I18n>(
        &'a self,
        _ctx: &(),
        trail: &mut Trail<'a>,
        report: &mut Report,
        h: &H,
    ) -> Result<(), AllocError> {
        let Self { text } = self;
        Transparent(text, (Is(Ascii), Is(length!(max = 4)))).visit(trail, report, h)
    }
}

/// A name under the index of its field.
#[derive(Drop)]
pub struct Numbered(pub String);

impl Stated for Numbered {
    type Context = ();

    ghost visits = { λ v _. item 0 (is (bytes (at_least 3) (str v.0))) };
}

impl Validate for Numbered {
    fn validate_into<'a, H: I18n>(
        &'a self,
        _ctx: &(),
        trail: &mut Trail<'a>,
        report: &mut Report,
        h: &H,
    ) -> Result<(), AllocError> {
        let Self(value) = self;
        Item(0, value, Is(length!(min = 3))).visit(trail, report, h)
    }
}

/// Three values under their indexes, but for the second.
#[derive(Drop)]
pub struct Triple(pub String, pub u8, pub u8);

impl Stated for Triple {
    type Context = ();

    ghost visits = { λ v _. item 0 (is (ascii (str v.0))) and item 2 (is (range (at_most 9) v.2)) };
}

impl Validate for Triple {
    fn validate_into<'a, H: I18n>(
        &'a self,
        _ctx: &(),
        trail: &mut Trail<'a>,
        report: &mut Report,
        h: &H,
    ) -> Result<(), AllocError> {
        let Self(first, _, third) = self;
        (
            Item(0, first, Is(Ascii)),
            Item(2, third, Is(range!(max = 9))),
        )
            .visit(trail, report, h)
    }
}

/// A value that validates itself.
#[derive(Drop)]
pub struct Holder<T> {
    pub value: T,
    pub label: String,
}

impl<T: Stated> Stated for Holder<T> {
    type Context = T::Context;

    ghost visits = { λ v ctx.
        field "value" (T.visits v.value ctx)
        and field "label" (is (bytes (at_least 1) (str v.label))) };
}

impl<T: Validate> Validate for Holder<T> {
    fn validate_into<'a, H: I18n>(
        &'a self,
        ctx: &T::Context,
        trail: &mut Trail<'a>,
        report: &mut Report,
        h: &H,
    ) -> Result<(), AllocError> {
        let Self { value, label } = self;
        (
            Field("value", value, Dive(ctx)),
            Field("label", label, Is(length!(min = 1))),
        )
            .visit_of(self, trail, report, h)
    }
}

/// Values of one type, each in its own box.
#[derive(Drop)]
pub struct Boxes<T>(pub Vec<Box<T>>);

impl<T: Stated> Stated for Boxes<T> {
    type Context = T::Context;

    ghost visits = { λ v ctx. each (λ x. T.visits x.value ctx) (slice v.0) };
}

impl<T: Validate> Validate for Boxes<T> {
    fn validate_into<'a, H: I18n>(
        &'a self,
        ctx: &T::Context,
        trail: &mut Trail<'a>,
        report: &mut Report,
        h: &H,
    ) -> Result<(), AllocError> {
        let Self(value) = self;
        Transparent(value, Each(Dive(ctx))).visit_of(self, trail, report, h)
    }
}

/// Nothing.
#[derive(Clone, Copy)]
pub struct Nothing;

impl Stated for Nothing {
    type Context = ();

    ghost visits = { λ v _. none };
}

impl Validate for Nothing {
    fn validate_into<'a, H: I18n>(
        &'a self,
        _ctx: &(),
        trail: &mut Trail<'a>,
        report: &mut Report,
        h: &H,
    ) -> Result<(), AllocError> {
        ().visit(trail, report, h)
    }
}
