//! Tests by which one of two forms is chosen.
ghost use Rattle.std.specs.Prelude.{◌≡◌, Bool, ◌&&◌, ◌||◌, not, is_some};
ghost use Rattle.json.specs.Json.{Json};
ghost use Rattle.garde_schema.specs.Choice.{has, has_with, is_kind, is_whole_number};
ghost use Rattle.garde_schema.specs.OneOf.{known_value};
ghost use Rattle.garde_schema.specs.Whole.{unsigned_value};

use crate::one_of::{OneOf, value_of};
use garde_tape::{Kind, Tree};

/// What is asked of a tree to choose one of two forms.
pub trait Test {
    /// Whether it holds of a JSON value.
    ghost holds: { Self → Json → Bool };

    /// Whether it holds of this tree.
    fn holds(&self, tree: &Tree<'_, '_>) -> bool
        ensures { result ≡ holds self.now tree.now };
}

/// The value is of this kind, for instance a text.
impl Test for Kind {
    ghost holds = { λ kind j. is_kind kind j };

    fn holds(&self, tree: &Tree<'_, '_>) -> bool {
        match self {
            Kind::Text => tree.as_str().is_some(),
            Kind::Number => tree.as_number().is_some(),
            Kind::Boolean => tree.as_bool().is_some(),
            Kind::Null => tree.is_null(),
            Kind::List => tree.items().is_some(),
            Kind::Object => tree.members().is_some(),
        }
    }
}

/// The value is a text that stands for a value.
impl<'n, V: Copy> Test for OneOf<'n, V> {
    ghost holds = { λ form j. is_some (known_value form.0.now j) };

    fn holds(&self, tree: &Tree<'_, '_>) -> bool {
        value_of(self.0, tree).is_some()
    }
}

/// The value is a whole number of any size, written by digits alone, perhaps behind a minus.
#[derive(Clone, Copy, Debug)]
pub struct IsWhole;

impl Test for IsWhole {
    ghost holds = { λ _ j. is_whole_number j };

    fn holds(&self, tree: &Tree<'_, '_>) -> bool {
        tree.is_whole()
    }
}

/// The value is a whole number without a sign that a `u64` holds.
#[derive(Clone, Copy, Debug)]
pub struct IsUnsigned;

impl Test for IsUnsigned {
    ghost holds = { λ _ j. is_some (unsigned_value j) };

    fn holds(&self, tree: &Tree<'_, '_>) -> bool {
        tree.as_u64().is_some()
    }
}

/// The value is an object with a member of this name, once or more often.
#[derive(Clone, Copy, Debug)]
pub struct Has<'n>(pub &'n str);

impl<'n> Test for Has<'n> {
    ghost holds = { λ test j. has test.0.now j };

    fn holds(&self, tree: &Tree<'_, '_>) -> bool {
        tree.get(self.0).is_some()
    }
}

/// The value is an object with a member of this name, of whose value the test holds. Of several such
/// members the last is asked.
#[derive(Clone, Copy, Debug)]
pub struct HasWith<'n, T>(pub &'n str, pub T);

impl<'n, T: Test> Test for HasWith<'n, T> {
    ghost holds = { λ test j. has_with test.0.now (λ v. T.holds test.1 v) j };

    fn holds(&self, tree: &Tree<'_, '_>) -> bool {
        match tree.get(self.0) {
            Some(value) => self.1.holds(&value),
            None => false,
        }
    }
}

/// Both hold.
impl<A: Test, B: Test> Test for (A, B) {
    ghost holds = { λ two j. A.holds two.0 j && B.holds two.1 j };

    fn holds(&self, tree: &Tree<'_, '_>) -> bool {
        self.0.holds(tree) && self.1.holds(tree)
    }
}

/// One of two tests holds, or both.
#[derive(Clone, Copy, Debug)]
pub struct AnyOf<A, B>(pub A, pub B);

impl<A: Test, B: Test> Test for AnyOf<A, B> {
    ghost holds = { λ two j. A.holds two.0 j || B.holds two.1 j };

    fn holds(&self, tree: &Tree<'_, '_>) -> bool {
        self.0.holds(tree) || self.1.holds(tree)
    }
}

/// The test does not hold.
#[derive(Clone, Copy, Debug)]
pub struct Not<T>(pub T);

impl<T: Test> Test for Not<T> {
    ghost holds = { λ test j. not (T.holds test.0 j) };

    fn holds(&self, tree: &Tree<'_, '_>) -> bool {
        !self.0.holds(tree)
    }
}
