//! Tuples of checks, of two to six. More are tuples in tuples, by `all!`.
ghost use Rattle.garde.specs.Visits.{◌and◌};

use super::Check;
use garde_i18n::I18n;
use garde_report::{Report, Trail};
use std::alloc::AllocError;

/// One check, and then the other.
impl<'a, T, A: Check<'a, T>, B: Check<'a, T>> Check<'a, T> for (A, B) {
    ghost visits = { λ both v. A.visits both.0 v and B.visits both.1 v };

    #[inline(always)]
    fn check<H: I18n>(
        &self,
        value: &'a T,
        trail: &mut Trail<'a>,
        report: &mut Report,
        h: &H,
    ) -> Result<(), AllocError> {
        self.0.check(value, trail, report, h)?;
        self.1.check(value, trail, report, h)
    }
}

/// Three checks in turn.
impl<'a, T, A: Check<'a, T>, B: Check<'a, T>, C: Check<'a, T>> Check<'a, T> for (A, B, C) {
    ghost visits = { λ all v. A.visits all.0 v and B.visits all.1 v and C.visits all.2 v };

    #[inline(always)]
    fn check<H: I18n>(
        &self,
        value: &'a T,
        trail: &mut Trail<'a>,
        report: &mut Report,
        h: &H,
    ) -> Result<(), AllocError> {
        (&self.0, (&self.1, &self.2)).check(value, trail, report, h)
    }
}

/// Four checks in turn.
impl<'a, T, A: Check<'a, T>, B: Check<'a, T>, C: Check<'a, T>, D: Check<'a, T>> Check<'a, T>
    for (A, B, C, D) {
    ghost visits = { λ all v.
        A.visits all.0 v and B.visits all.1 v and C.visits all.2 v and D.visits all.3 v };

    #[inline(always)]
    fn check<H: I18n>(
        &self,
        value: &'a T,
        trail: &mut Trail<'a>,
        report: &mut Report,
        h: &H,
    ) -> Result<(), AllocError> {
        (&self.0, (&self.1, (&self.2, &self.3))).check(value, trail, report, h)
    }
}

/// Five checks in turn.
impl<
    'a,
    T,
    A: Check<'a, T>,
    B: Check<'a, T>,
    C: Check<'a, T>,
    D: Check<'a, T>,
    E: Check<'a, T>,
> Check<'a, T> for (A, B, C, D, E) {
    ghost visits = { λ all v.
        A.visits all.0 v and B.visits all.1 v and C.visits all.2 v and D.visits all.3 v
        and E.visits all.4 v };

    #[inline(always)]
    fn check<H: I18n>(
        &self,
        value: &'a T,
        trail: &mut Trail<'a>,
        report: &mut Report,
        h: &H,
    ) -> Result<(), AllocError> {
        let rest = (&self.3, &self.4);
        (&self.0, &self.1, &self.2, rest).check(value, trail, report, h)
    }
}

/// Six checks in turn.
impl<
    'a,
    T,
    A: Check<'a, T>,
    B: Check<'a, T>,
    C: Check<'a, T>,
    D: Check<'a, T>,
    E: Check<'a, T>,
    F: Check<'a, T>,
> Check<'a, T> for (A, B, C, D, E, F) {
    ghost visits = { λ all v.
        A.visits all.0 v and B.visits all.1 v and C.visits all.2 v and D.visits all.3 v
        and E.visits all.4 v and F.visits all.5 v };

    #[inline(always)]
    fn check<H: I18n>(
        &self,
        value: &'a T,
        trail: &mut Trail<'a>,
        report: &mut Report,
        h: &H,
    ) -> Result<(), AllocError> {
        let rest = (&self.3, &self.4, &self.5);
        (&self.0, &self.1, &self.2, rest).check(value, trail, report, h)
    }
}
