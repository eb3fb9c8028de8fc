//! Values of user-defined types.
ghost use Rattle.std.specs.Prelude.{◌≡◌, option_map};

use crate::form::{Form, Members};
use crate::handler::FormI18n;
use garde::{I18n, Report, Trail};
use garde_tape::Tree;
use std::alloc::AllocError;
use std::marker::PhantomData;

/// A type of yours, whose values are made of the value of a form.
pub trait FromParts: Drop {
    /// The value of the form.
    type Parts;

    /// The value that is made.
    ghost builds: { Self.Parts → Self };

    /// The parts of which a value was made.
    ghost parts_of: { Self → Self.Parts };

    /// Makes the value.
    fn from_parts(parts: Self::Parts) -> Self
        ensures { result ≡ builds parts };

    /// The parts of a value that was made are those that it was made of.
    ghost kept: { (parts : Self.Parts) → parts_of (builds parts) ≡ parts };
}

/// This form, of whose value one of the type `T` is made.
///
/// A struct is read by `Built(Object((Member(..), Member(..))), PhantomData)`, where `T` is the struct:
/// a type of yours that implements `FromParts`. Where the compiler does not find it from the use, name it
/// by `PhantomData::<&Line<'_>>`. No fault is added. What the rules ask is known of the parts of the
/// value. Around members, as in `Built((Member(..), Member(..)), PhantomData)`, it stands among those of
/// another object, as the members of a field under `flatten` do.
#[derive(Clone, Copy, Debug)]
pub struct Built<'a, F, T>(pub F, pub PhantomData<&'a T>);

impl<'a, T: FromParts, F: Form<'a, Out = T::Parts>> Form<'a> for Built<'a, F, T> {
    type Out = T;

    ghost visits = { λ form texts j. F.visits form.0 texts j };

    ghost value = { λ form j. option_map (λ parts. T.builds parts) (F.value form.0 j) };

    ghost keeps = { λ form out. F.keeps form.0 (T.parts_of out) };

    fn read<'t, H: I18n + FormI18n>(
        &self,
        tree: &Tree<'t, 'a>,
        trail: &mut Trail<'a>,
        report: &mut Report,
        h: &H,
    ) -> Result<Option<T>, AllocError> {
        match self.0.read(tree, trail, report, h) {
            Ok(Some(parts)) => Ok(Some(T::from_parts(parts))),
            Ok(None) => Ok(None),
            Err(refused) => Err(refused),
        }
    }
}

/// The members of a struct, which stand among those of another one.
impl<'a, T: FromParts, M: Members<'a, Out = T::Parts>> Members<'a> for Built<'a, M, T> {
    type Out = T;

    ghost visits = { λ members texts j. M.visits members.0 texts j };

    ghost value = { λ members j. option_map (λ parts. T.builds parts) (M.value members.0 j) };

    ghost keeps = { λ members out. M.keeps members.0 (T.parts_of out) };

    ghost names = { λ members name. M.names members.0 name };

    fn read_members<'t, H: I18n + FormI18n>(
        &self,
        object: &Tree<'t, 'a>,
        trail: &mut Trail<'a>,
        report: &mut Report,
        h: &H,
    ) -> Result<Option<T>, AllocError> {
        match self.0.read_members(object, trail, report, h) {
            Ok(Some(parts)) => Ok(Some(T::from_parts(parts))),
            Ok(None) => Ok(None),
            Err(refused) => Err(refused),
        }
    }

    fn names(&self, name: &str) -> bool {
        self.0.names(name)
    }
}
