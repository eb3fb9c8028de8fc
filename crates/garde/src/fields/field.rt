//! The fields of a value.
ghost use Rattle.garde_report.specs.Part.{index_part, key_part};
ghost use Rattle.garde.specs.Visits.{Visits, Visited, none, under};

use super::check::{Check, check_under};
use garde_i18n::I18n;
use garde_report::{Component, Report, Trail};
use std::alloc::AllocError;

/// Fields that are checked in turn, each under its name. It is implemented for one `Field`, for one
/// `Item`, for one `Transparent`, for tuples of fields and for `()`, which checks nothing.
pub trait Fields<'a> {
    /// The visits of the fields.
    ghost visits: { Self → Visits };

    /// Appends the faults of the fields to the report.
    ///
    /// `AllocError` is returned where memory runs out, under the terms of
    /// `Validate::validate_into`.
    fn visit<H: I18n>(
        &self,
        trail: &mut Trail<'a>,
        report: &mut Report,
        h: &H,
    ) -> Result<(), AllocError>
        ensures { Visited (visits self.now) (H.text h.now)
            trail.old trail.new report.old report.new result };

    /// The same of the fields of a type with parameters. The whole value is passed for its
    /// lifetime: its fields live as long.
    final fn visit_of<W, H: I18n>(
        &self,
        _whole: &'a W,
        trail: &mut Trail<'a>,
        report: &mut Report,
        h: &H,
    ) -> Result<(), AllocError>
        ensures { Visited (visits self.now) (H.text h.now)
            trail.old trail.new report.old report.new result }
    {
        self.visit(trail, report, h)
    }
}

/// A field: its name, its value, and what is checked of it.
#[derive(Clone, Copy, Debug)]
pub struct Field<'a, T, C>(pub &'a str, pub &'a T, pub C);

impl<'a, T, C: Check<'a, T>> Fields<'a> for Field<'a, T, C> {
    ghost visits = { λ field. under (key_part field.0.now) (C.visits field.2 field.1.now) };

    #[inline(always)]
    fn visit<H: I18n>(
        &self,
        trail: &mut Trail<'a>,
        report: &mut Report,
        h: &H,
    ) -> Result<(), AllocError> {
        check_under(Component::key(self.0), &self.2, self.1, trail, report, h)
    }
}

/// A field of a tuple: its index, its value, and what is checked of it.
#[derive(Clone, Copy, Debug)]
pub struct Item<'a, T, C>(pub usize, pub &'a T, pub C);

impl<'a, T, C: Check<'a, T>> Fields<'a> for Item<'a, T, C> {
    ghost visits = { λ field. under (index_part field.0) (C.visits field.2 field.1.now) };

    #[inline(always)]
    fn visit<H: I18n>(
        &self,
        trail: &mut Trail<'a>,
        report: &mut Report,
        h: &H,
    ) -> Result<(), AllocError> {
        check_under(Component::index(self.0), &self.2, self.1, trail, report, h)
    }
}

/// A value that is checked with no component of its own: its faults stand where those of the whole do.
/// In a derive of the Rust crate the attribute `transparent` asks for this.
#[derive(Clone, Copy, Debug)]
pub struct Transparent<'a, T, C>(pub &'a T, pub C);

impl<'a, T, C: Check<'a, T>> Fields<'a> for Transparent<'a, T, C> {
    ghost visits = { λ field. C.visits field.1 field.0.now };

    fn visit<H: I18n>(
        &self,
        trail: &mut Trail<'a>,
        report: &mut Report,
        h: &H,
    ) -> Result<(), AllocError> {
        self.1.check(self.0, trail, report, h)
    }
}

impl<'a> Fields<'a> for () {
    ghost visits = { λ _. none };

    fn visit<H: I18n>(
        &self,
        _trail: &mut Trail<'a>,
        _report: &mut Report,
        _h: &H,
    ) -> Result<(), AllocError> {
        Ok(())
    }
}

impl<'a, 'r, F: Fields<'a>> Fields<'a> for &'r F {
    ghost visits = { λ fields. F.visits fields.now };

    #[inline(always)]
    fn visit<H: I18n>(
        &self,
        trail: &mut Trail<'a>,
        report: &mut Report,
        h: &H,
    ) -> Result<(), AllocError> {
        (**self).visit(trail, report, h)
    }
}
