//! Values that were not validated yet.
ghost use Rattle.std.specs.Prelude.{◌≡◌};

use crate::valid::Valid;
use crate::validate::Validate;
use crate::validate_error::ValidateError;
use garde_report::Report;
use std::alloc::{AllocError, Global};
use std::fmt;
use std::marker::Model;

/// A value that was not validated yet. A contract sees the value.
#[derive(Drop)]
pub struct Unvalidated<T>(T);

impl<T> Model for Unvalidated<T> {
    ghost Value = { T };

    ghost view = { λ unvalidated. unvalidated.0 };

    ghost inverse = { λ value. record { 0 = value } };
}

/// Why no valid value was made.
#[derive(Debug, Drop)]
pub enum IntoValidError<T> {
    /// The faults, in the order of the walk. The value was dropped.
    Report(Report),
    /// Out of memory. The value is handed back.
    Memory(Unvalidated<T>),
}

impl<T: Validate> Unvalidated<T> {
    /// The value, before it is validated.
    pub fn new(value: T) -> Self
        ensures { result ≡ value }
    {
        Unvalidated(value)
    }
}

impl<T: Validate + Drop> Unvalidated<T> {
    ghost use Rattle.garde_i18n.specs.DefaultText.{default_text};
    ghost use Rattle.std.specs.Prelude.{IsOk, OnOk};
    ghost use Rattle.garde.specs.Answers.{NeedsNoMemory};
    ghost use Rattle.garde.specs.Validated.{AnswersFor};
    ghost use Rattle.garde.specs.Visits.{Known};

    /// Validates the value under the default context, with the texts of `DefaultI18n`.
    pub fn validate(self, alloc: Global) -> Result<Valid<T>, IntoValidError<T>>
    where
        T::Context: Default + Drop,
        ensures answer { (ctx : T.Context) × T.Context.is_default ctx
            × AnswersFor (T.visits self ctx) default_text self result }
        ensures sure { ((ctx : T.Context) → T.Context.is_default ctx
            → NeedsNoMemory (T.visits self ctx) 0) → IsOk result }
        ensures known { (ctx : T.Context) × T.Context.is_default ctx
            × OnOk result (Known (T.visits self ctx)) }
    {
        let ctx = T::Context::default();
        self.validate_with(alloc, &ctx)
    }

    /// Validates the value under a context, with the texts of `DefaultI18n`.
    ///
    /// `Report` is returned exactly for a value with a fault, unless memory runs out. `Memory` is
    /// returned only for a value with a fault, for one nested deeper than 8 components, or for one
    /// whose type states that its rules may allocate.
    pub fn validate_with(
        self,
        alloc: Global,
        ctx: &T::Context,
    ) -> Result<Valid<T>, IntoValidError<T>>
        ensures answer { AnswersFor (T.visits self ctx.now) default_text self result }
        ensures sure { NeedsNoMemory (T.visits self ctx.now) 0 → IsOk result }
        ensures known { OnOk result (Known (T.visits self ctx.now)) }
    {
        match self.0.validate_with(alloc, ctx) {
            Ok(()) => {
                let Unvalidated(value) = self;
                Ok(Valid::new(value))
            }
            Err(ValidateError::Report(report)) => Err(IntoValidError::Report(report)),
            Err(ValidateError::Memory) => Err(IntoValidError::Memory(self)),
        }
    }
}

impl<T: Validate> From<T> for Unvalidated<T> {
    ghost from_gives = { λ value unvalidated. unvalidated ≡ value };

    fn from(value: T) -> Self {
        Unvalidated(value)
    }
}

impl<T: Default> Default for Unvalidated<T> {
    ghost is_default = { T.is_default };

    fn default() -> Self {
        Unvalidated(T::default())
    }
}

impl<T: Clone> Clone for Unvalidated<T> {
    ghost is_clone = { T.is_clone };

    ghost is_infallible = { T.is_infallible };

    fn clone(&self) -> Result<Unvalidated<T>, AllocError> {
        Ok(Unvalidated(self.0.clone()?))
    }
}

impl<T: Copy> Copy for Unvalidated<T> {}

/// The value as it shows itself.
impl<T: fmt::Debug> fmt::Debug for Unvalidated<T> {
    fn fmt<W: fmt::Write>(&self, f: &mut fmt::Formatter<W>) -> fmt::Result {
        self.0.fmt(f)
    }
}
