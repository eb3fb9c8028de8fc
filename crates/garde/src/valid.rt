//! Values that were validated.
ghost use Rattle.std.specs.Prelude.{◌≡◌, IfOk, IsOk};

use crate::stated::Stated;
use std::alloc::AllocError;
use std::marker::Model;
use std::ops::Deref;

/// A value of which some context found no fault. A contract sees the value.
///
/// `Unvalidated` makes one by a walk, `known` makes one of a value whose rules hold by a proof, and
/// `clone` of another.
#[derive(Debug, Drop)]
pub struct Valid<T: Stated>(T);

impl<T: Stated> Model for Valid<T> {
    ghost use Rattle.garde.specs.Validated.{IsValid};

    ghost Value = { T };

    ghost view = { λ valid. valid.0 };

    ghost invariant = { λ valid. IsValid T.visits valid.0 };
}

impl<T: Stated> Valid<T> {
    ghost use Rattle.garde.specs.Validated.{IsValid};
    ghost use Rattle.garde.specs.Visits.{Known};

    /// The value, of which the caller proves that this context finds no fault. Nothing is checked
    /// or allocated at run time.
    pub fn known(value: T, ctx: &T::Context) -> Self
        requires { Known (T.visits value ctx.now) }
        ensures { result ≡ value }
    {
        Valid::new(value)
    }

    /// The value, of which some context found no fault.
    pub(crate) fn new(value: T) -> Self
        requires { IsValid T.visits value }
        ensures { result ≡ value }
    {
        Valid(value)
    }

    /// The value, of which some context found no fault.
    pub fn into_inner(self) -> T
        ensures value { result ≡ self }
        ensures valid { IsValid T.visits result }
    {
        let Valid(value) = self;
        value
    }
}

impl<T: Stated + Clone> Valid<T> {
    /// Another such value. It may be called where each clone of the value is equal to it.
    pub fn clone(&self) -> Result<Valid<T>, AllocError>
        requires { (copy : T) → T.is_clone self.now copy → copy ≡ self.now }
        ensures ok { IfOk result (λ copy. copy ≡ self.now) }
        ensures given { T.is_infallible self.now → IsOk result }
    {
        Ok(Valid(self.0.clone()?))
    }
}

/// The value, of which some context found no fault.
impl<T: Stated> Deref for Valid<T> {
    ghost use Rattle.garde.specs.Validated.{IsValid};

    type Target = T;

    ghost deref_gives = { λ valid value. (value ≡ valid) × IsValid T.visits value };

    fn deref(&self) -> &T {
        &self.0
    }
}
