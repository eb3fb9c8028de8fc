//! Rules and checks of what an option holds.
ghost use Rattle.garde.specs.Visits.{optional};

use super::check::Check;
use super::rules::Rules;
use garde_i18n::I18n;
use garde_report::{Report, Trail};
use std::alloc::AllocError;

/// The rules or the check of what an option holds, with no component of its own. An option without a value
/// passes.
#[derive(Clone, Copy, Debug)]
pub struct IfSome<C>(pub C);

#[tactic(auto, unfolding(crate::specs::Visits::optional))]
impl<'a, T, C: Check<'a, T>> Check<'a, Option<T>> for IfSome<C> {
    ghost visits = { λ check v. optional (λ x. C.visits check.0 x) v };

    #[inline(always)]
    fn check<H: I18n>(
        &self,
        value: &'a Option<T>,
        trail: &mut Trail<'a>,
        report: &mut Report,
        h: &H,
    ) -> Result<(), AllocError> {
        match value {
            Some(item) => self.0.check(item, trail, report, h),
            None => Ok(()),
        }
    }
}

#[tactic(auto, unfolding(crate::specs::Visits::optional))]
impl<T, R: Rules<T>> Rules<Option<T>> for IfSome<R> {
    ghost asks = { λ rules value. optional (λ x. R.asks rules.0 x) value };

    #[inline(always)]
    fn ask<'a, H: I18n>(
        &self,
        value: &Option<T>,
        trail: &mut Trail<'a>,
        report: &mut Report,
        h: &H,
    ) -> Result<(), AllocError> {
        match value {
            Some(item) => self.0.ask(item, trail, report, h),
            None => Ok(()),
        }
    }
}
