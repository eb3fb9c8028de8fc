//! A variant with two names.
ghost use Rattle.std.specs.Prelude.{◌⊎◌};
ghost use Rattle.garde_schema.specs.Variants.{first_choice, either_visits, either_names};

use crate::either::Either;
use crate::form::Form;
use crate::handler::FormI18n;
use crate::variants::Variants;
use garde::{I18n, Report, Trail};
use garde_tape::Tree;
use std::alloc::AllocError;

/// The first of two variants that has the name, where both have a value of the same type. So a variant
/// is read under a further name, as serde reads one with an `alias`:
/// `Same(Member("card", card), Member("credit", card))`.
#[derive(Clone, Copy, Debug)]
pub struct Same<A, B>(pub A, pub B);

impl<'a, A: Variants<'a>, B: Variants<'a, Out = A::Out>> Variants<'a> for Same<A, B> {
    type Choice = Either<A::Choice, B::Choice>;

    type Out = A::Out;

    ghost chosen = { λ two name. first_choice (A.chosen two.0 name) (B.chosen two.1 name) };

    ghost visits = { λ two choice tag texts j. either_visits
        (λ a. A.visits two.0 a tag texts j) (λ b. B.visits two.1 b tag texts j) choice };

    ghost value = { λ two choice j.
        either_names (λ a. A.value two.0 a j) (λ b. B.value two.1 b j) choice };

    ghost keeps = { λ two out. A.keeps two.0 out ⊎ B.keeps two.1 out };

    ghost names = { λ two choice name.
        either_names (λ a. A.names two.0 a name) (λ b. B.names two.1 b name) choice };

    fn choose(&self, name: &str) -> Option<Either<A::Choice, B::Choice>> {
        if let Some(choice) = self.0.choose(name) {
            return Some(Either::Left(choice));
        }
        Some(Either::Right(self.1.choose(name)?))
    }

    fn read_variant<'t, H: I18n + FormI18n>(
        &self,
        choice: Either<A::Choice, B::Choice>,
        tag: &'a str,
        object: &Tree<'t, 'a>,
        trail: &mut Trail<'a>,
        report: &mut Report,
        h: &H,
    ) -> Result<Option<A::Out>, AllocError> {
        match choice {
            Either::Left(one) => self.0.read_variant(one, tag, object, trail, report, h),
            Either::Right(other) => self.1.read_variant(other, tag, object, trail, report, h),
        }
    }

    fn names(&self, choice: Either<A::Choice, B::Choice>, name: &str) -> bool {
        match choice {
            Either::Left(one) => self.0.names(one, name),
            Either::Right(other) => self.1.names(other, name),
        }
    }
}
