//! Numbers, with a sign and without, under each kind of bounds.
ghost use Rattle.garde.specs.Fields.{◌and◌, at_least, at_most, between, exactly, field, is, minus, plus, range, signed_range};

use garde::fields::{Field, Fields, Is};
use garde::{I18n, Report, Stated, Trail, Validate, range};
use std::alloc::AllocError;

/// What an instrument shows.
#[derive(Clone, Copy)]
pub struct Reading {
    pub age: u8,
    pub height: u32,
    pub kind: u64,
    pub channel: usize,
    pub coldest: i16,
    pub depth: i64,
    pub tilt: i32,
    pub drift: i8,
}

impl Stated for Reading {
    type Context = ();

    ghost visits = { λ v _.
        field "age" (is (range (at_least 18) v.age))
        and field "height" (is (range (at_most 5000) v.height))
        and field "kind" (is (range (exactly 7) v.kind))
        and field "channel" (is (range (between 1 255) v.channel))
        and field "coldest" (is (signed_range (at_least (minus 40)) v.coldest))
        and field "depth" (is (signed_range (at_most (minus 1)) v.depth))
        and field "tilt" (is (signed_range (between (minus 10) (plus 10)) v.tilt))
        and field "drift" (is (signed_range (exactly (plus 0)) v.drift)) };
}

impl Validate for Reading {
    fn validate_into<'a, H: I18n>(
        &'a self,
        _ctx: &(),
        trail: &mut Trail<'a>,
        report: &mut Report,
        h: &H,
    ) -> Result<(), AllocError> {
        let Self {
            age,
            height,
            kind,
            channel,
            coldest,
            depth,
            tilt,
            drift,
        } = self;
        (
            Field("age", age, Is(range!(min = 18))),
            Field("height", height, Is(range!(max = 5000))),
            Field("kind", kind, Is(range!(equal = 7))),
            Field("channel", channel, Is(range!(min = 1, max = 255))),
            Field("coldest", coldest, Is(range!(min = -40))),
            (
                Field("depth", depth, Is(range!(max = -1))),
                Field("tilt", tilt, Is(range!(min = -10, max = 10))),
                Field("drift", drift, Is(range!(equal = 0))),
            ),
        )
            .visit(trail, report, h)
    }
}
