//! Rules, which borrow nothing from the value.
ghost use Rattle.std.specs.Prelude.{◌≡◌};
ghost use Rattle.garde_report.specs.Part.{part_of};
ghost use Rattle.garde.specs.Visits.{Visits, Visited, none, under, found, may_allocate};

mod tuples;

use garde_i18n::I18n;
use garde_report::{Component, Report, Trail};
use garde_rules::Rule;
use garde_rules::values::MemoryRule;
use std::alloc::AllocError;

/// Rules that are asked of a `T` where the trail leads.
///
/// They may be asked of a value that lives shorter than the trail, so they stand in a form, where the
/// value is being made, as well as in a walk. What borrows from the value, as `Dive` and the keys of
/// a map, is a `Check` alone.
pub trait Rules<T> {
    /// What the rules find in a value.
    ghost asks: { Self → T → Visits };

    /// Appends what the rules find to the report.
    ///
    /// `AllocError` is returned where memory runs out, under the terms of
    /// `Validate::validate_into`.
    fn ask<'a, H: I18n>(
        &self,
        value: &T,
        trail: &mut Trail<'a>,
        report: &mut Report,
        h: &H,
    ) -> Result<(), AllocError>
        ensures { Visited (asks self.now value.now) (H.text h.now)
            trail.old trail.new report.old report.new result };
}

/// No rule.
impl<T> Rules<T> for () {
    ghost asks = { λ _ _. none };

    fn ask<'a, H: I18n>(
        &self,
        _value: &T,
        _trail: &mut Trail<'a>,
        _report: &mut Report,
        _h: &H,
    ) -> Result<(), AllocError> {
        Ok(())
    }
}

/// That a rule holds of the value.
#[derive(Clone, Copy, Debug)]
pub struct Is<R>(pub R);

impl<T, R: Rule<T>> Rules<T> for Is<R> {
    ghost asks = { λ is value. found (R.finds is.0 value) };

    #[inline(always)]
    fn ask<'a, H: I18n>(
        &self,
        value: &T,
        trail: &mut Trail<'a>,
        report: &mut Report,
        h: &H,
    ) -> Result<(), AllocError> {
        if self.0.holds(value) {
            trail.put(report, Ok(()))
        } else {
            put_found(&self.0, value, trail, report, h)
        }
    }
}

// Asks the rule what it finds, and puts that. It stands out of line, so that a rule that holds is a
// test.
#[inline(never)]
fn put_found<'a, T, R: Rule<T>, H: I18n>(
    rule: &R,
    value: &T,
    trail: &mut Trail<'a>,
    report: &mut Report,
    h: &H,
) -> Result<(), AllocError>
    ensures { Visited (found (R.finds rule.now value.now)) (H.text h.now)
        trail.old trail.new report.old report.new result }
{
    let alloc = trail.alloc();
    trail.put(report, rule.find(alloc, value, h))
}

/// That a rule holds of the value which may allocate for its answer, as that of a pattern or of a
/// URL.
#[derive(Clone, Copy, Debug)]
pub struct IsInMemory<R>(pub R);

impl<T, R: MemoryRule<T>> Rules<T> for IsInMemory<R> {
    ghost asks = { λ is value. may_allocate (found (R.finds is.0 value)) };

    #[inline(always)]
    fn ask<'a, H: I18n>(
        &self,
        value: &T,
        trail: &mut Trail<'a>,
        report: &mut Report,
        h: &H,
    ) -> Result<(), AllocError> {
        let alloc = trail.alloc();
        trail.put(report, self.0.find_in_memory(alloc, value, h))
    }
}

/// The rules that are referred to.
impl<'r, T, R: Rules<T>> Rules<T> for &'r R {
    ghost asks = { λ rules value. R.asks rules.now value };

    #[inline(always)]
    fn ask<'a, H: I18n>(
        &self,
        value: &T,
        trail: &mut Trail<'a>,
        report: &mut Report,
        h: &H,
    ) -> Result<(), AllocError> {
        (**self).ask(value, trail, report, h)
    }
}

/// Asks the rules of a value that stands under a component: the component is pushed, the rules are
/// asked, the component is popped.
///
/// `AllocError` is returned where memory runs out, under the terms of `Validate::validate_into`.
#[inline(always)]
pub fn ask_under<'a, T, R: Rules<T>, H: I18n>(
    component: Component<'a>,
    rules: &R,
    value: &T,
    trail: &mut Trail<'a>,
    report: &mut Report,
    h: &H,
) -> Result<(), AllocError>
    ensures { Visited (under (part_of component.entry) (R.asks rules.now value.now))
        (H.text h.now) trail.old trail.new report.old report.new result }
{
    trail.push(component)?;
    let asked = rules.ask(value, trail, report, h);
    trail.pop();
    asked
}
