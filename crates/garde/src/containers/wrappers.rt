//! Values that hold one other value, or none.
ghost use Rattle.std.specs.Cow.{cow_value};
ghost use Rattle.garde.specs.Visits.{none, optional};

use crate::fields::Fields;
use crate::stated::Stated;
use crate::validate::Validate;
use garde_i18n::I18n;
use garde_report::{Report, Trail};
use std::alloc::AllocError;
use std::borrow::Cow;
use std::rc::Rc;

/// The value that is referred to, with no component of its own.
impl<T: Stated> Stated for &T {
    type Context = T::Context;

    ghost visits = { λ v. T.visits v.now };
}

impl<T: Validate> Validate for &T {
    fn validate_into<'a, H: I18n>(
        &'a self,
        ctx: &T::Context,
        trail: &mut Trail<'a>,
        report: &mut Report,
        h: &H,
    ) -> Result<(), AllocError> {
        (*self).validate_into(ctx, trail, report, h)
    }
}

/// The value that is referred to, with no component of its own.
impl<T: Stated> Stated for &mut T {
    type Context = T::Context;

    ghost visits = { λ v. T.visits v.now };
}

impl<T: Validate> Validate for &mut T {
    fn validate_into<'a, H: I18n>(
        &'a self,
        ctx: &T::Context,
        trail: &mut Trail<'a>,
        report: &mut Report,
        h: &H,
    ) -> Result<(), AllocError> {
        (**self).validate_into(ctx, trail, report, h)
    }
}

/// The value in the box, with no component of its own.
impl<T: Stated> Stated for Box<T> {
    type Context = T::Context;

    ghost visits = { λ v. T.visits v.value };
}

impl<T: Validate> Validate for Box<T> {
    fn validate_into<'a, H: I18n>(
        &'a self,
        ctx: &T::Context,
        trail: &mut Trail<'a>,
        report: &mut Report,
        h: &H,
    ) -> Result<(), AllocError> {
        self.as_ref().validate_into(ctx, trail, report, h)
    }
}

/// The shared value, with no component of its own.
impl<T: Stated> Stated for Rc<T> {
    type Context = T::Context;

    ghost visits = { λ v. T.visits v.value };
}

impl<T: Validate> Validate for Rc<T> {
    fn validate_into<'a, H: I18n>(
        &'a self,
        ctx: &T::Context,
        trail: &mut Trail<'a>,
        report: &mut Report,
        h: &H,
    ) -> Result<(), AllocError> {
        Rc::as_ref(self).validate_into(ctx, trail, report, h)
    }
}

/// The value that is borrowed or owned, with no component of its own.
impl<T: Stated + Clone> Stated for Cow<'_, T> {
    type Context = T::Context;

    ghost visits = { λ v. T.visits (cow_value v) };
}

impl<T: Validate + Clone> Validate for Cow<'_, T> {
    fn validate_into<'a, H: I18n>(
        &'a self,
        ctx: &T::Context,
        trail: &mut Trail<'a>,
        report: &mut Report,
        h: &H,
    ) -> Result<(), AllocError> {
        match self {
            Cow::Borrowed(value) => value.validate_into(ctx, trail, report, h),
            Cow::Owned(value) => value.validate_into(ctx, trail, report, h),
        }
    }
}

/// The value that there is, with no component of its own. No value has no fault.
impl<T: Stated> Stated for Option<T> {
    type Context = T::Context;

    ghost visits = { λ v c. optional (λ x. T.visits x c) v };
}

#[tactic(auto, unfolding(crate::specs::Visits::optional))]
impl<T: Validate> Validate for Option<T> {
    fn validate_into<'a, H: I18n>(
        &'a self,
        ctx: &T::Context,
        trail: &mut Trail<'a>,
        report: &mut Report,
        h: &H,
    ) -> Result<(), AllocError> {
        match self {
            Some(value) => value.validate_into(ctx, trail, report, h),
            None => Ok(()),
        }
    }
}

/// Nothing is visited, and there is no fault.
impl Stated for () {
    type Context = ();

    ghost visits = { λ _ _. none };
}

impl Validate for () {
    fn validate_into<'a, H: I18n>(
        &'a self,
        _ctx: &(),
        trail: &mut Trail<'a>,
        report: &mut Report,
        h: &H,
    ) -> Result<(), AllocError> {
        ().visit(trail, report, h)
    }
}
