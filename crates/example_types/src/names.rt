//! A list that is walked twice, and an option in each of its items.
ghost use Rattle.garde.specs.Fields.{◌and◌, ascii, at_least, bytes, each, each_of_option, field, is, items, part_of, required, slice, str, under, Visited};

use garde::fields::{Ascii, Check, Field, Fields, Is, Length, Required, check_under};
use garde::rules::inner;
use garde::{I18n, Report, Stated, Trail, Validate};
use std::alloc::AllocError;

/// One name at least, each of them set, of ASCII and not empty.
#[derive(Drop)]
pub struct Names {
    pub items: Vec<Option<String>>,
}

impl Stated for Names {
    type Context = ();

    ghost visits = { λ v _.
        field "items" (is (items (at_least 1) (slice v.items))
        and each (λ name. is (required name)) (slice v.items)
        and each (λ name. each_of_option (λ text. is (ascii (str text)) and is (bytes (at_least 1) (str text))) name) (slice v.items)) };
}

impl Validate for Names {
    fn validate_into<'a, H: I18n>(
        &'a self,
        _ctx: &(),
        trail: &mut Trail<'a>,
        report: &mut Report,
        h: &H,
    ) -> Result<(), AllocError> {
        let Self { items } = self;
        let some = Is(NOT_EMPTY);
        Field("items", items, (some, EachSet, EachText)).visit(trail, report, h)
    }
}

const NOT_EMPTY: Length = Length {
    min: 1,
    max: usize::MAX,
};

/// The check that each item is set.
#[derive(Clone, Copy)]
struct EachSet;

impl<'a> Check<'a, Vec<Option<String>>> for EachSet {
    ghost visits = { λ _ v. each (λ name. is (required name)) (slice v) };

    fn check<H: I18n>(
        &self,
        value: &'a Vec<Option<String>>,
        trail: &mut Trail<'a>,
        report: &mut Report,
        h: &H,
    ) -> Result<(), AllocError> {
        inner::apply(value, trail, report, |name, component, trail, report| {
            check_under(component, &Is(Required), name, trail, report, h)
        })
    }
}

/// The check that each text is of ASCII and not empty.
#[derive(Clone, Copy)]
struct EachText;

impl<'a> Check<'a, Vec<Option<String>>> for EachText {
    ghost visits = { λ _ v. each (λ name. each_of_option (λ text. is (ascii (str text)) and is (bytes (at_least 1) (str text))) name) (slice v) };

    fn check<H: I18n>(
        &self,
        value: &'a Vec<Option<String>>,
        trail: &mut Trail<'a>,
        report: &mut Report,
        h: &H,
    ) -> Result<(), AllocError> {
        inner::apply(
            value,
            trail,
            report,
            |name, component, trail, report|
                ensures { Visited (under (part_of component.entry) (each_of_option (λ text. is (ascii (str text)) and is (bytes (at_least 1) (str text))) name.now))
                    (H.text h.entry.now) trail.old trail.new report.old report.new result }
            {
                trail.push(component)?;
                let outcome = inner::apply(name, trail, report, |text, component, trail, report| {
                    let rules = (Is(Ascii), Is(NOT_EMPTY));
                    check_under(component, &rules, text, trail, report, h)
                });
                trail.pop();
                outcome
            },
        )
    }
}
