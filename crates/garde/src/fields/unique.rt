//! Lists whose items differ from one another.
ghost use Rattle.std.specs.Prelude.{◌≡◌, Bool};
ghost use Rattle.garde.specs.Visits.{Visited};
ghost use Rattle.garde.specs.Fields.{includes, unique_text};

use super::asks::Asks;
use super::check::Check;
use super::rules::{Is, Rules, ask_under};
use garde_i18n::I18n;
use garde_report::{Component, Report, Trail};
use std::alloc::AllocError;

/// Which values of a `T` are the same, as two lines with one name.
pub trait Same<T> {
    /// Whether two values are the same.
    ghost same: { Self → T → T → Bool };

    /// Whether two values are the same.
    fn are_same(&self, one: &T, other: &T) -> bool
        ensures { result ≡ same self.now one.now other.now };
}

/// That two values are equal.
#[derive(Clone, Copy, Debug, Default)]
pub struct Equal;

impl<T: PartialEq> Same<T> for Equal {
    ghost same = { λ _ one other. T.eq one other };

    fn are_same(&self, one: &T, other: &T) -> bool {
        one == other
    }
}

/// That no two items of a list are the same. Each item that is the same as one before it
/// is a fault, under its own index, with this message, which no handler changes.
///
/// The comparison allocates nothing. Each item is compared with those before it, so a list of 1,000
/// items takes up to 499,500 comparisons.
#[derive(Clone, Copy, Debug)]
pub struct Unique<'m, S>(pub &'m str, pub S);

impl<'s, T, S: Same<T>> Rules<&'s [T]> for Unique<'_, S> {
    ghost asks = { λ rules v. unique_text rules.0.now (λ x y. S.same rules.1 x y) v.now };

    fn ask<'a, H: I18n>(
        &self,
        value: &&'s [T],
        trail: &mut Trail<'a>,
        report: &mut Report,
        h: &H,
    ) -> Result<(), AllocError> {
        let items = *value;
        for (index, item) in items.iter().enumerate() {
            let asks = Asks(self.0, !includes(&items[..index], &self.1, item));
            ask_under(Component::index(index), &Is(asks), item, trail, report, h)?;
        }
        Ok(())
    }
}

impl<T, S: Same<T>> Rules<Vec<T>> for Unique<'_, S> {
    ghost asks = { λ rules v. unique_text rules.0.now (λ x y. S.same rules.1 x y) v.items };

    fn ask<'a, H: I18n>(
        &self,
        value: &Vec<T>,
        trail: &mut Trail<'a>,
        report: &mut Report,
        h: &H,
    ) -> Result<(), AllocError> {
        self.ask(&value.as_slice(), trail, report, h)
    }
}

impl<'a, T, S: Same<T>> Check<'a, Vec<T>> for Unique<'_, S> {
    ghost visits = { λ check v. unique_text check.0.now (λ x y. S.same check.1 x y) v.items };

    fn check<H: I18n>(
        &self,
        value: &'a Vec<T>,
        trail: &mut Trail<'a>,
        report: &mut Report,
        h: &H,
    ) -> Result<(), AllocError> {
        self.ask(value, trail, report, h)
    }
}

/// Whether a list includes an item that is the same as this one.
pub fn includes<T, S: Same<T>>(items: &[T], same: &S, item: &T) -> bool
    ensures { result ≡ includes (λ x y. S.same same.now x y) items.now item.now }
{
    for other in items {
        if same.are_same(other, item) {
            return true;
        }
    }
    false
}
