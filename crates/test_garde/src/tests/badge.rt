//! A value whose path is made by hand: push the component, ask the rule, pop.
ghost use Rattle.garde.specs.Fields.{at_least, field, is, range};

use garde::rules::range;
use garde::{Component, I18n, Report, Stated, Trail, Validate};
use std::alloc::AllocError;

/// A number of at least 1.
#[derive(Drop)]
pub struct Badge {
    pub number: u8,
}

impl Stated for Badge {
    type Context = ();

    ghost visits = { λ v _. field "number" (is (range (at_least 1) v.number)) };
}

impl Validate for Badge {
    fn validate_into<'a, H: I18n>(
        &'a self,
        _ctx: &(),
        trail: &mut Trail<'a>,
        report: &mut Report,
        h: &H,
    ) -> Result<(), AllocError> {
        let alloc = trail.alloc();
        let Self { number } = self;
        trail.push(Component::key("number"))?;
        let answer = range::apply(alloc, number, (Some(1), None), h);
        let outcome = trail.put(report, answer);
        trail.pop();
        outcome
    }
}
