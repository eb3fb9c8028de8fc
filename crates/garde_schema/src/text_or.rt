//! Texts of one form, and all other values of another one.
ghost use Rattle.std.specs.Prelude.{◌≡◌};
ghost use Rattle.json.specs.Find.{as_str};
ghost use Rattle.garde_schema.specs.Variants.{text_side, either_visits, either_value, EitherKeeps};

use crate::either::Either;
use crate::form::Form;
use crate::handler::FormI18n;
use crate::variants::{left, right};
use garde::{I18n, Report, Trail};
use garde_tape::Tree;
use std::alloc::AllocError;

/// A text of the first form, or any other value, of the second. The value is an `Either`.
///
/// So an enum is read of which some variants have fields and others have none, as serde writes it by
/// default: `"cash"` or `{"card": {..}}` by
/// `TextOr(OneOf(&[("cash", Payment::Cash)]), OneMember(Member("card", card), PhantomData))`.
#[derive(Clone, Copy, Debug)]
pub struct TextOr<A, B>(pub A, pub B);

// The first where the tree is a text, and else the second.
fn side(tree: &Tree<'_, '_>) -> Either<(), ()>
    ensures { result ≡ text_side (as_str tree.now) }
{
    match tree.as_str() {
        Some(_) => Either::Left(()),
        None => Either::Right(()),
    }
}

impl<'a, A: Form<'a>, B: Form<'a>> Form<'a> for TextOr<A, B> {
    type Out = Either<A::Out, B::Out>;

    ghost visits = { λ form texts j. either_visits
        (λ _. A.visits form.0 texts j) (λ _. B.visits form.1 texts j) (text_side (as_str j)) };

    ghost value = { λ form j.
        either_value (λ _. A.value form.0 j) (λ _. B.value form.1 j) (text_side (as_str j)) };

    ghost keeps = { λ form out. EitherKeeps (λ x. A.keeps form.0 x) (λ y. B.keeps form.1 y) out };

    fn read<'t, H: I18n + FormI18n>(
        &self,
        tree: &Tree<'t, 'a>,
        trail: &mut Trail<'a>,
        report: &mut Report,
        h: &H,
    ) -> Result<Option<Either<A::Out, B::Out>>, AllocError> {
        match side(tree) {
            Either::Left(()) => left(self.0.read(tree, trail, report, h)),
            Either::Right(()) => right(self.1.read(tree, trail, report, h)),
        }
    }
}
