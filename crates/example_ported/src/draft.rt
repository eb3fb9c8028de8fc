//! Fields without an attribute, where the type allows them, and names that stand for something else in an implementation.
ghost use Rattle.garde.specs.Fields.{◌and◌, at_least, at_most, bytes, field, is, range, str};

use garde::fields::{Field, Fields, Is};
use garde::{I18n, Report, Stated, Trail, Validate, length, range};
use std::alloc::AllocError;

/// A draft.
#[derive(Clone, PartialEq, Drop)]
pub struct Draft {
    pub report: String,
    pub trail: u8,
    pub h: u8,
}

impl Stated for Draft {
    type Context = ();

    ghost visits = { λ v _.
        field "report" (is (bytes (at_least 1) (str v.report)))
        and field "h" (is (range (at_most 9) v.h)) };
}

impl Validate for Draft {
    fn validate_into<'a, H: I18n>(
        &'a self,
        _ctx: &(),
        trail: &mut Trail<'a>,
        report: &mut Report,
        h: &H,
    ) -> Result<(), AllocError> {
        let Self {
            report: the_report,
            trail: _,
            h: the_h,
        } = self;
        (
            Field("report", the_report, Is(length!(min = 1))),
            Field("h", the_h, Is(range!(max = 9))),
        )
            .visit(trail, report, h)
    }
}
