//! A field that is compared with another one, by a rule that holds the other's value.
ghost use Rattle.garde.specs.Fields.{◌and◌, asks, field, is, nat_eq, nat_lt, not, remainder};

use garde::fields::{Field, Fields, Is, Rule};
use garde::{I18n, Report, RuleError, Stated, Trail, Validate};
use std::alloc::{AllocError, Global};
use std::borrow::CowStr;

/// The rule that a day is no Monday. Days are counted from a Monday.
#[derive(Clone, Copy)]
pub struct NoMonday;

impl Rule<u32> for NoMonday {
    ghost finds = { λ _ day. asks "closed on Mondays" (not (nat_eq (remainder day 7) 0)) };

    fn find<H: I18n>(&self, alloc: Global, value: &u32, _h: &H) -> Result<(), RuleError> {
        if *value % 7 != 0 {
            Ok(())
        } else {
            Err(RuleError::of(alloc, Ok(CowStr::Borrowed("closed on Mondays"))))
        }
    }
}

/// The rule that a number is greater than this one.
#[derive(Clone, Copy)]
pub struct After(pub u32);

impl Rule<u32> for After {
    ghost finds = { λ first day. asks "leave after you arrive" (nat_lt first.0 day) };

    fn find<H: I18n>(&self, alloc: Global, value: &u32, _h: &H) -> Result<(), RuleError> {
        if self.0 < *value {
            Ok(())
        } else {
            Err(RuleError::of(alloc, Ok(CowStr::Borrowed("leave after you arrive"))))
        }
    }
}

/// From which day to which one someone stays.
#[derive(Drop)]
pub struct Stay {
    pub arrival: u32,
    pub departure: u32,
}

impl Stated for Stay {
    type Context = ();

    ghost visits = { λ v _.
        field "arrival" (is (asks "closed on Mondays" (not (nat_eq (remainder v.arrival 7) 0))))
        and field "departure" (is (asks "leave after you arrive" (nat_lt v.arrival v.departure))) };
}

impl Validate for Stay {
    fn validate_into<'a, H: I18n>(
        &'a self,
        _ctx: &(),
        trail: &mut Trail<'a>,
        report: &mut Report,
        h: &H,
    ) -> Result<(), AllocError> {
        let Self { arrival, departure } = self;
        (
            Field("arrival", arrival, Is(NoMonday)),
            Field("departure", departure, Is(After(*arrival))),
        )
            .visit(trail, report, h)
    }
}
