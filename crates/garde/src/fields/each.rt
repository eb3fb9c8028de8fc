//! Rules and checks of each item.
ghost use Rattle.garde.specs.Visits.{each_of_option};

mod asked;
mod loops;
mod maps;
mod part;
mod sequences;
mod sets;

use super::check::{Check, check_under};
use garde_i18n::I18n;
use garde_report::{Component, Report, Trail};
pub use part::check_part;
use std::alloc::AllocError;

/// The rules or the check of each item of a value in turn: the items of a sequence, a set or a heap under their
/// indexes, the values of a map under their keys, and what an option holds under the component
/// without a name.
#[derive(Clone, Copy, Debug)]
pub struct Each<C>(pub C);

/// What the option holds, under the component without a name; nothing of none.
#[tactic(auto, unfolding(crate::specs::Visits::optional))]
impl<'a, T, C: Check<'a, T>> Check<'a, Option<T>> for Each<C> {
    ghost visits = { λ each v. each_of_option (λ x. C.visits each.0 x) v };

    fn check<H: I18n>(
        &self,
        value: &'a Option<T>,
        trail: &mut Trail<'a>,
        report: &mut Report,
        h: &H,
    ) -> Result<(), AllocError> {
        match value {
            Some(item) => check_under(Component::unnamed(), &self.0, item, trail, report, h),
            None => Ok(()),
        }
    }
}
