//! Checks of a value.
ghost use Rattle.std.specs.Prelude.{◌≡◌};
ghost use Rattle.garde_report.specs.Part.{part_of};
ghost use Rattle.garde.specs.Visits.{Visits, Visited, under, found, may_allocate};

mod tuples;

use super::rules::{Is, IsInMemory, Rules};
use crate::validate::Validate;
use garde_i18n::I18n;
use garde_report::{Component, Report, Trail};
use garde_rules::Rule;
use garde_rules::values::MemoryRule;
use std::alloc::AllocError;

/// What is checked of a `T` that stands where the trail leads and lives as long.
///
/// Each of the library's `Rules` is one, and so are the checks that borrow from the value: `Dive`, and
/// what walks the keys of a map.
pub trait Check<'a, T> {
    /// The visits of a value by this check.
    ghost visits: { Self → T → Visits };

    /// Appends the faults that the check finds to the report.
    ///
    /// `AllocError` is returned where memory runs out, under the terms of
    /// `Validate::validate_into`.
    fn check<H: I18n>(
        &self,
        value: &'a T,
        trail: &mut Trail<'a>,
        report: &mut Report,
        h: &H,
    ) -> Result<(), AllocError>
        ensures { Visited (visits self.now value.now) (H.text h.now)
            trail.old trail.new report.old report.new result };
}

impl<'a, T, R: Rule<T>> Check<'a, T> for Is<R> {
    ghost visits = { λ is v. found (R.finds is.0 v) };

    #[inline(always)]
    fn check<H: I18n>(
        &self,
        value: &'a T,
        trail: &mut Trail<'a>,
        report: &mut Report,
        h: &H,
    ) -> Result<(), AllocError> {
        self.ask(value, trail, report, h)
    }
}

impl<'a, T, R: MemoryRule<T>> Check<'a, T> for IsInMemory<R> {
    ghost visits = { λ is v. may_allocate (found (R.finds is.0 v)) };

    #[inline(always)]
    fn check<H: I18n>(
        &self,
        value: &'a T,
        trail: &mut Trail<'a>,
        report: &mut Report,
        h: &H,
    ) -> Result<(), AllocError> {
        self.ask(value, trail, report, h)
    }
}

/// The check that the value, under this context, is valid by its own `Validate`.
#[derive(Clone, Copy, Debug)]
pub struct Dive<'c, C>(pub &'c C);

impl<'a, 'c, T: Validate> Check<'a, T> for Dive<'c, T::Context> {
    ghost visits = { λ dive v. T.visits v dive.0.now };

    #[inline(always)]
    fn check<H: I18n>(
        &self,
        value: &'a T,
        trail: &mut Trail<'a>,
        report: &mut Report,
        h: &H,
    ) -> Result<(), AllocError> {
        value.validate_into(self.0, trail, report, h)
    }
}

/// The check that is referred to.
impl<'a, 'r, T, C: Check<'a, T>> Check<'a, T> for &'r C {
    ghost visits = { λ check v. C.visits check.now v };

    #[inline(always)]
    fn check<H: I18n>(
        &self,
        value: &'a T,
        trail: &mut Trail<'a>,
        report: &mut Report,
        h: &H,
    ) -> Result<(), AllocError> {
        (**self).check(value, trail, report, h)
    }
}

/// Checks a value that stands under a component: the component is pushed, the value checked, the
/// component popped.
///
/// `AllocError` is returned where memory runs out, under the terms of `Validate::validate_into`.
#[inline(always)]
pub fn check_under<'a, T, C: Check<'a, T>, H: I18n>(
    component: Component<'a>,
    check: &C,
    value: &'a T,
    trail: &mut Trail<'a>,
    report: &mut Report,
    h: &H,
) -> Result<(), AllocError>
    ensures { Visited (under (part_of component.entry) (C.visits check.now value.now))
        (H.text h.now) trail.old trail.new report.old report.new result }
{
    trail.push(component)?;
    let checked = check.check(value, trail, report, h);
    trail.pop();
    checked
}
