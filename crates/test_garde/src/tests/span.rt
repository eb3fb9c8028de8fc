//! A value that is copied with no allocation, under a rule of its own.
ghost use Rattle.std.specs.Prelude.{◌≡◌, None, Some, if◌then◌else◌, nat_lt};
ghost use Rattle.garde.specs.Fields.{codes, is, own};

use garde::fields::{Check, Is};
use garde::rules::Rule;
use garde::{I18n, Report, RuleError, Stated, Trail, Validate};
use std::alloc::{AllocError, Global};
use std::borrow::CowStr;

/// A span of numbers.
#[derive(Clone, Copy, Debug, Default)]
pub struct Span {
    pub from: u8,
    pub to: u8,
}

/// The rule that a span does not end before it begins, with a message of its own.
#[derive(Drop)]
pub struct InOrder;

impl Rule<Span> for InOrder {
    ghost finds = { λ _ span. if nat_lt span.to span.from then Some (own (codes "backwards")) else None };

    fn find<H: I18n>(&self, alloc: Global, span: &Span, _h: &H) -> Result<(), RuleError> {
        let Span { from, to } = span;
        if to < from {
            Err(RuleError::of(alloc, Ok(CowStr::Borrowed("backwards"))))
        } else {
            Ok(())
        }
    }
}

impl Stated for Span {
    type Context = ();

    ghost visits = { λ span _. is (if nat_lt span.to span.from then Some (own (codes "backwards")) else None) };
}

impl Validate for Span {
    fn validate_into<'a, H: I18n>(
        &'a self,
        _ctx: &(),
        trail: &mut Trail<'a>,
        report: &mut Report,
        h: &H,
    ) -> Result<(), AllocError> {
        Is(InOrder).check(self, trail, report, h)
    }
}
