//! Rules of each item of a list, or of what an option holds.
ghost use Rattle.garde.specs.Visits.{each_of_option, items};

use super::Each;
use crate::fields::rules::{Rules, ask_under};
use garde_i18n::I18n;
use garde_report::{Component, Report, Trail};
use std::alloc::AllocError;

/// Each item in order, under its index.
impl<'s, T, R: Rules<T>> Rules<&'s [T]> for Each<R> {
    ghost asks = { λ each v. items (λ x. R.asks each.0 x) v.now };

    fn ask<'a, H: I18n>(
        &self,
        value: &&'s [T],
        trail: &mut Trail<'a>,
        report: &mut Report,
        h: &H,
    ) -> Result<(), AllocError> {
        let items = *value;
        for (index, item) in items.iter().enumerate() {
            let place = Component::index(index);
            ask_under(place, &self.0, item, trail, report, h)?;
        }
        Ok(())
    }
}

/// Each item in order, under its index.
impl<T, R: Rules<T>> Rules<Vec<T>> for Each<R> {
    ghost asks = { λ each v. items (λ x. R.asks each.0 x) v.items };

    fn ask<'a, H: I18n>(
        &self,
        value: &Vec<T>,
        trail: &mut Trail<'a>,
        report: &mut Report,
        h: &H,
    ) -> Result<(), AllocError> {
        self.ask(&value.as_slice(), trail, report, h)
    }
}

/// What the option holds, under the component without a name; nothing of none.
#[tactic(auto, unfolding(crate::specs::Visits::optional))]
impl<T, R: Rules<T>> Rules<Option<T>> for Each<R> {
    ghost asks = { λ each v. each_of_option (λ x. R.asks each.0 x) v };

    fn ask<'a, H: I18n>(
        &self,
        value: &Option<T>,
        trail: &mut Trail<'a>,
        report: &mut Report,
        h: &H,
    ) -> Result<(), AllocError> {
        match value {
            Some(item) => ask_under(Component::unnamed(), &self.0, item, trail, report, h),
            None => Ok(()),
        }
    }
}
