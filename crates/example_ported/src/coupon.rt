//! User-defined rules, and rules of a view.
ghost use Rattle.garde.specs.Fields.{◌and◌, at_most, bytes, each, field, is, prefix, reference_to, slice, str};

use crate::own::{CouponTermsRule, IsEven, IsInSeason, TagText};
use garde::fields::{Adapt, Each, Field, Fields, Is, Prefix};
use garde::{I18n, Report, Stated, Trail, Validate, length};
use std::alloc::AllocError;

/// What is asked of coupons.
#[derive(Clone, Copy)]
pub struct Season {
    /// The greatest discount.
    pub most: u8,
}

/// A text of its own type.
#[derive(Drop)]
pub struct Tag(pub String);

/// A part of the price.
#[derive(Drop)]
pub struct Discount {
    pub percent: u8,
    pub further: Vec<u8>,
}

impl Stated for Discount {
    type Context = Season;

    ghost visits = { λ v season.
        field "percent" (is (⟦<IsInSeason<'static> as garde::fields::Rule<u8>>⟧.finds (record { 0 = reference_to season }) v.percent))
        and field "further" (each (λ x. is (⟦<IsInSeason<'static> as garde::fields::Rule<u8>>⟧.finds (record { 0 = reference_to season }) x)) (slice v.further)) };
}

impl Validate for Discount {
    fn validate_into<'a, H: I18n>(
        &'a self,
        season: &Season,
        trail: &mut Trail<'a>,
        report: &mut Report,
        h: &H,
    ) -> Result<(), AllocError> {
        let Self { percent, further } = self;
        (
            Field("percent", percent, Is(IsInSeason(season))),
            Field("further", further, Each(Is(IsInSeason(season)))),
        )
            .visit(trail, report, h)
    }
}

/// A coupon.
#[derive(Drop)]
pub struct Coupon {
    pub number: u32,
    pub tag: Tag,
    pub terms: bool,
}

impl Stated for Coupon {
    type Context = ();

    ghost visits = { λ v _.
        field "number" (is (⟦<IsEven as garde::fields::Rule<u32>>⟧.finds (record {}) v.number))
        and field "tag" (is (prefix "t-" (str (⟦<TagText as garde::fields::View<Tag>>⟧.seen (record {}) v.tag))) and is (bytes (at_most 6) (str (⟦<TagText as garde::fields::View<Tag>>⟧.seen (record {}) v.tag))))
        and field "terms" (is (⟦<CouponTermsRule as garde::fields::Rule<bool>>⟧.finds (record {}) v.terms)) };
}

impl Validate for Coupon {
    fn validate_into<'a, H: I18n>(
        &'a self,
        _ctx: &(),
        trail: &mut Trail<'a>,
        report: &mut Report,
        h: &H,
    ) -> Result<(), AllocError> {
        let Self { number, tag, terms } = self;
        (
            Field("number", number, Is(IsEven)),
            Field(
                "tag",
                tag,
                (
                    Is(Adapt(TagText, Prefix("t-"))),
                    Is(Adapt(TagText, length!(max = 6))),
                ),
            ),
            Field("terms", terms, Is(CouponTermsRule)),
        )
            .visit(trail, report, h)
    }
}
