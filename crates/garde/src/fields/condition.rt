//! Rules and checks under a condition.
ghost use Rattle.garde.specs.Visits.{when};

use super::check::Check;
use super::rules::Rules;
use garde_i18n::I18n;
use garde_report::{Report, Trail};
use std::alloc::AllocError;

/// The rules or the check, where the condition holds, and else none.
#[derive(Clone, Copy, Debug)]
pub struct When<C>(pub bool, pub C);

impl<'a, T, C: Check<'a, T>> Check<'a, T> for When<C> {
    ghost visits = { λ check v. when check.0 (C.visits check.1 v) };

    fn check<H: I18n>(
        &self,
        value: &'a T,
        trail: &mut Trail<'a>,
        report: &mut Report,
        h: &H,
    ) -> Result<(), AllocError> {
        if self.0 {
            self.1.check(value, trail, report, h)
        } else {
            Ok(())
        }
    }
}

impl<T, R: Rules<T>> Rules<T> for When<R> {
    ghost asks = { λ rules value. when rules.0 (R.asks rules.1 value) };

    fn ask<'a, H: I18n>(
        &self,
        value: &T,
        trail: &mut Trail<'a>,
        report: &mut Report,
        h: &H,
    ) -> Result<(), AllocError> {
        if self.0 {
            self.1.ask(value, trail, report, h)
        } else {
            Ok(())
        }
    }
}
