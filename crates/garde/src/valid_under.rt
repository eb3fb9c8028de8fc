//! Values that were validated under a context which is kept.
use crate::stated::Stated;
use std::marker::Model;
use std::ops::Deref;

/// A value with the context under which it has no fault. A contract sees the value and the context.
#[derive(Debug, Drop)]
pub struct ValidUnder<'c, T: Stated> {
    value: T,
    context: &'c T::Context,
}

impl<'c, T: Stated> Model for ValidUnder<'c, T> {
    ghost use Rattle.garde.specs.Visits.{Known};

    ghost Value = { T × T.Context };

    ghost view = { λ under. (under.value, under.context.now) };

    ghost invariant = { λ under. Known (T.visits under.value under.context.now) };
}

impl<'c, T: Stated> ValidUnder<'c, T> {
    ghost use Rattle.std.specs.Prelude.{◌≡◌};
    ghost use Rattle.garde.specs.Visits.{Known};

    /// The value and the context, of which the caller proves that this context finds no fault.
    /// Nothing is checked or allocated at run time.
    pub fn known(value: T, context: &'c T::Context) -> Self
        requires { Known (T.visits value context.now) }
        ensures { result ≡ (value, context.now) }
    {
        ValidUnder { value, context }
    }

    /// The context.
    pub fn context(&self) -> &'c T::Context
        ensures { result.now ≡ self.now.1 }
    {
        self.context
    }

    /// The value, of which the context found no fault.
    pub fn into_inner(self) -> T
        ensures value { result ≡ self.entry.0 }
        ensures known { Known (T.visits result self.entry.1) }
    {
        let ValidUnder {
            value,
            context: _context,
        } = self;
        value
    }
}

/// The value, of which the context found no fault.
impl<'c, T: Stated> Deref for ValidUnder<'c, T> {
    ghost use Rattle.std.specs.Prelude.{◌≡◌};
    ghost use Rattle.garde.specs.Visits.{Known};

    type Target = T;

    ghost deref_gives = { λ under value. (value ≡ under.0) × Known (T.visits value under.1) };

    fn deref(&self) -> &T {
        &self.value
    }
}
