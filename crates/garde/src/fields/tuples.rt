//! Tuples of fields, of two to six. More are tuples in tuples, by `all!`.
ghost use Rattle.garde.specs.Visits.{◌and◌};

use super::field::Fields;
use garde_i18n::I18n;
use garde_report::{Report, Trail};
use std::alloc::AllocError;

/// Two fields in turn.
impl<'a, A: Fields<'a>, B: Fields<'a>> Fields<'a> for (A, B) {
    ghost visits = { λ fields. A.visits fields.0 and B.visits fields.1 };

    #[inline(always)]
    fn visit<H: I18n>(
        &self,
        trail: &mut Trail<'a>,
        report: &mut Report,
        h: &H,
    ) -> Result<(), AllocError> {
        self.0.visit(trail, report, h)?;
        self.1.visit(trail, report, h)
    }
}

/// Three fields in turn.
impl<'a, A: Fields<'a>, B: Fields<'a>, C: Fields<'a>> Fields<'a> for (A, B, C) {
    ghost visits = { λ fields. A.visits fields.0 and B.visits fields.1 and C.visits fields.2 };

    #[inline(always)]
    fn visit<H: I18n>(
        &self,
        trail: &mut Trail<'a>,
        report: &mut Report,
        h: &H,
    ) -> Result<(), AllocError> {
        (&self.0, (&self.1, &self.2)).visit(trail, report, h)
    }
}

/// Four fields in turn.
impl<'a, A: Fields<'a>, B: Fields<'a>, C: Fields<'a>, D: Fields<'a>> Fields<'a> for (A, B, C, D) {
    ghost visits = { λ fields.
        A.visits fields.0 and B.visits fields.1 and C.visits fields.2 and D.visits fields.3 };

    #[inline(always)]
    fn visit<H: I18n>(
        &self,
        trail: &mut Trail<'a>,
        report: &mut Report,
        h: &H,
    ) -> Result<(), AllocError> {
        (&self.0, (&self.1, (&self.2, &self.3))).visit(trail, report, h)
    }
}

/// Five fields in turn.
impl<'a, A: Fields<'a>, B: Fields<'a>, C: Fields<'a>, D: Fields<'a>, E: Fields<'a>> Fields<'a>
    for (A, B, C, D, E) {
    ghost visits = { λ fields.
        A.visits fields.0 and B.visits fields.1 and C.visits fields.2 and D.visits fields.3
        and E.visits fields.4 };

    #[inline(always)]
    fn visit<H: I18n>(
        &self,
        trail: &mut Trail<'a>,
        report: &mut Report,
        h: &H,
    ) -> Result<(), AllocError> {
        let rest = (&self.3, &self.4);
        (&self.0, &self.1, &self.2, rest).visit(trail, report, h)
    }
}

/// Six fields in turn.
impl<
    'a,
    A: Fields<'a>,
    B: Fields<'a>,
    C: Fields<'a>,
    D: Fields<'a>,
    E: Fields<'a>,
    F: Fields<'a>,
> Fields<'a> for (A, B, C, D, E, F) {
    ghost visits = { λ fields.
        A.visits fields.0 and B.visits fields.1 and C.visits fields.2 and D.visits fields.3
        and E.visits fields.4 and F.visits fields.5 };

    #[inline(always)]
    fn visit<H: I18n>(
        &self,
        trail: &mut Trail<'a>,
        report: &mut Report,
        h: &H,
    ) -> Result<(), AllocError> {
        let rest = (&self.3, &self.4, &self.5);
        (&self.0, &self.1, &self.2, rest).visit(trail, report, h)
    }
}
