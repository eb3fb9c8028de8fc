//! Tuples whose items have one context, each item under its index.
ghost use Rattle.garde.specs.Visits.{item, ◌and◌};

/// The items of a tuple at these indexes: the first, and those after it.
macro_rules! items {
    ($tuple:expr; $index:tt) => { Item($index, &$tuple.$index) };
    ($tuple:expr; $index:tt $($others:tt)+) => {
        (Item($index, &$tuple.$index), items!($tuple; $($others)+))
    };
}

mod long;
mod short;

use crate::fields::{Dive, check_under};
use crate::validate::Validate;
use garde_i18n::I18n;
use garde_report::{Component, Report, Trail};
use std::alloc::AllocError;

/// Items of a tuple that are visited in turn: one `Item`, or an `Item` and those after it.
trait Items<'a> {
    ghost use Rattle.garde.specs.Visits.{Visits, Visited};

    /// The one context of the items.
    type Context;

    /// The visits of the items under a context.
    ghost visits: { Self → Self.Context → Visits };

    /// Appends the faults of the items to the report, under the terms of `Validate::validate_into`.
    /// The tuple is passed for its lifetime: the items live as long as it.
    fn visit<W, H: I18n>(
        &self,
        ctx: &Self::Context,
        tuple: &'a W,
        trail: &mut Trail<'a>,
        report: &mut Report,
        h: &H,
    ) -> Result<(), AllocError>
        ensures { Visited (visits self.now ctx.now) (H.text h.now)
            trail.old trail.new report.old report.new result };
}

/// An item of a tuple, and its index.
#[derive(Clone, Copy)]
struct Item<'a, T>(usize, &'a T);

impl<'a, T: Validate> Items<'a> for Item<'a, T> {
    type Context = T::Context;

    ghost visits = { λ at c. item at.0 (T.visits at.1.now c) };

    fn visit<W, H: I18n>(
        &self,
        ctx: &T::Context,
        _tuple: &'a W,
        trail: &mut Trail<'a>,
        report: &mut Report,
        h: &H,
    ) -> Result<(), AllocError> {
        check_under(
            Component::index(self.0),
            &Dive(ctx),
            self.1,
            trail,
            report,
            h,
        )
    }
}

impl<'a, T: Validate, R: Items<'a, Context = T::Context>> Items<'a> for (Item<'a, T>, R) {
    type Context = T::Context;

    ghost visits = { λ pair c. item pair.0.0 (T.visits pair.0.1.now c) and R.visits pair.1 c };

    fn visit<W, H: I18n>(
        &self,
        ctx: &T::Context,
        tuple: &'a W,
        trail: &mut Trail<'a>,
        report: &mut Report,
        h: &H,
    ) -> Result<(), AllocError> {
        self.0.visit(ctx, tuple, trail, report, h)?;
        self.1.visit(ctx, tuple, trail, report, h)
    }
}
