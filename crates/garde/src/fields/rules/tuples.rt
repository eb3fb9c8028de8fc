//! Tuples of rules, of two to six. More are tuples in tuples, by `all!`.
ghost use Rattle.garde.specs.Visits.{◌and◌};

use super::Rules;
use garde_i18n::I18n;
use garde_report::{Report, Trail};
use std::alloc::AllocError;

/// The one, and then the other.
impl<T, A: Rules<T>, B: Rules<T>> Rules<T> for (A, B) {
    ghost asks = { λ both value. A.asks both.0 value and B.asks both.1 value };

    #[inline(always)]
    fn ask<'a, H: I18n>(
        &self,
        value: &T,
        trail: &mut Trail<'a>,
        report: &mut Report,
        h: &H,
    ) -> Result<(), AllocError> {
        self.0.ask(value, trail, report, h)?;
        self.1.ask(value, trail, report, h)
    }
}

/// Three in turn.
impl<T, A: Rules<T>, B: Rules<T>, C: Rules<T>> Rules<T> for (A, B, C) {
    ghost asks = { λ all value.
        A.asks all.0 value and B.asks all.1 value and C.asks all.2 value };

    #[inline(always)]
    fn ask<'a, H: I18n>(
        &self,
        value: &T,
        trail: &mut Trail<'a>,
        report: &mut Report,
        h: &H,
    ) -> Result<(), AllocError> {
        (&self.0, (&self.1, &self.2)).ask(value, trail, report, h)
    }
}

/// Four in turn.
impl<T, A: Rules<T>, B: Rules<T>, C: Rules<T>, D: Rules<T>> Rules<T> for (A, B, C, D) {
    ghost asks = { λ all value.
        A.asks all.0 value and B.asks all.1 value and C.asks all.2 value and D.asks all.3 value };

    #[inline(always)]
    fn ask<'a, H: I18n>(
        &self,
        value: &T,
        trail: &mut Trail<'a>,
        report: &mut Report,
        h: &H,
    ) -> Result<(), AllocError> {
        (&self.0, (&self.1, (&self.2, &self.3))).ask(value, trail, report, h)
    }
}

/// Five in turn.
impl<T, A: Rules<T>, B: Rules<T>, C: Rules<T>, D: Rules<T>, E: Rules<T>> Rules<T>
    for (A, B, C, D, E) {
    ghost asks = { λ all value.
        A.asks all.0 value and B.asks all.1 value and C.asks all.2 value and D.asks all.3 value
        and E.asks all.4 value };

    #[inline(always)]
    fn ask<'a, H: I18n>(
        &self,
        value: &T,
        trail: &mut Trail<'a>,
        report: &mut Report,
        h: &H,
    ) -> Result<(), AllocError> {
        let rest = (&self.3, &self.4);
        (&self.0, &self.1, &self.2, rest).ask(value, trail, report, h)
    }
}

/// Six in turn.
impl<T, A: Rules<T>, B: Rules<T>, C: Rules<T>, D: Rules<T>, E: Rules<T>, F: Rules<T>> Rules<T>
    for (A, B, C, D, E, F) {
    ghost asks = { λ all value.
        A.asks all.0 value and B.asks all.1 value and C.asks all.2 value and D.asks all.3 value
        and E.asks all.4 value and F.asks all.5 value };

    #[inline(always)]
    fn ask<'a, H: I18n>(
        &self,
        value: &T,
        trail: &mut Trail<'a>,
        report: &mut Report,
        h: &H,
    ) -> Result<(), AllocError> {
        let rest = (&self.3, &self.4, &self.5);
        (&self.0, &self.1, &self.2, rest).ask(value, trail, report, h)
    }
}
