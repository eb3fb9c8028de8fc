//! One of two forms, by a test.
ghost use Rattle.std.specs.Prelude.{◌≡◌};
ghost use Rattle.garde_schema.specs.Choice.{test_side};
ghost use Rattle.garde_schema.specs.Variants.{either_visits, either_value, EitherKeeps};

use crate::either::Either;
use crate::form::Form;
use crate::handler::FormI18n;
use crate::test::Test;
use crate::variants::{left, right};
use garde::{I18n, Report, Trail};
use garde_tape::Tree;
use std::alloc::AllocError;

/// A value of the first form where the test holds of it, and else one of the second. The value is an
/// `Either`.
///
/// So an enum is read that is `untagged` for serde, for instance
/// `Choice(Kind::List, List(Text(())), Text(()))`: many texts or one. Serde tries one variant after the
/// other; here the test chooses the variant, and what does not fit it is a fault.
#[derive(Clone, Copy, Debug)]
pub struct Choice<T, A, B>(pub T, pub A, pub B);

// The first where the test holds, and else the second.
fn side<T: Test>(test: &T, tree: &Tree<'_, '_>) -> Either<(), ()>
    ensures { result ≡ test_side (T.holds test.now tree.now) }
{
    if test.holds(tree) {
        Either::Left(())
    } else {
        Either::Right(())
    }
}

impl<'a, T: Test, A: Form<'a>, B: Form<'a>> Form<'a> for Choice<T, A, B> {
    type Out = Either<A::Out, B::Out>;

    ghost visits = { λ form texts j. either_visits (λ _. A.visits form.1 texts j)
        (λ _. B.visits form.2 texts j) (test_side (T.holds form.0 j)) };

    ghost value = { λ form j. either_value (λ _. A.value form.1 j) (λ _. B.value form.2 j)
        (test_side (T.holds form.0 j)) };

    ghost keeps = { λ form out. EitherKeeps (λ x. A.keeps form.1 x) (λ y. B.keeps form.2 y) out };

    fn read<'t, H: I18n + FormI18n>(
        &self,
        tree: &Tree<'t, 'a>,
        trail: &mut Trail<'a>,
        report: &mut Report,
        h: &H,
    ) -> Result<Option<Either<A::Out, B::Out>>, AllocError> {
        match side(&self.0, tree) {
            Either::Left(()) => left(self.1.read(tree, trail, report, h)),
            Either::Right(()) => right(self.2.read(tree, trail, report, h)),
        }
    }
}
