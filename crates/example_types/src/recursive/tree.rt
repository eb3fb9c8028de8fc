//! Trees of values of any type, which hold trees in a vector.
ghost use Rattle.std.proofs.Common.{arith};
ghost use Rattle.garde.proofs.Author.{smaller_in};
ghost use Rattle.garde.specs.Fields.{field, in_vec, nest_visits};
ghost use Rattle.example_types.specs.declared.recursive.tree.Tree.{out-Tree, size-Tree, size_is-Tree};

use garde::fields::{Dive, Field, Fields};
use garde::recursive::{Recursive, walk};
use garde::{I18n, Report, Stated, Trail, Validate};
use std::alloc::AllocError;

/// A value and the trees under it.
#[derive(Drop)]
pub struct Tree<T> {
    pub value: T,
    pub children: Vec<Tree<T>>,
}

impl<T: Validate> Recursive for Tree<T> {
    type Context = T::Context;

    type Children = Vec<Tree<T>>;

    ghost nest = { record {
      own = λ v c. field "value" (T.visits (out-Tree T v).value c);
      name = "children";
      children = λ v. in_vec (out-Tree T v).children;
      size = size-Tree T;
      smaller = λ v k x has. omega (arith, size_is-Tree T v, smaller_in (size-Tree T) _ _ has);
    } };

    fn children(&self) -> (&'static str, &Vec<Tree<T>>) {
        ("children", &self.children)
    }

    fn visit_own<'a, H: I18n>(
        &'a self,
        ctx: &T::Context,
        trail: &mut Trail<'a>,
        report: &mut Report,
        h: &H,
    ) -> Result<(), AllocError> {
        let Self { value, children: _ } = self;
        Field("value", value, Dive(ctx)).visit(trail, report, h)
    }
}

impl<T: Validate> Stated for Tree<T> {
    type Context = T::Context;

    ghost visits = { nest_visits ⟦<Tree<T> as Recursive>⟧.nest };
}

impl<T: Validate> Validate for Tree<T> {
    fn validate_into<'a, H: I18n>(
        &'a self,
        ctx: &T::Context,
        trail: &mut Trail<'a>,
        report: &mut Report,
        h: &H,
    ) -> Result<(), AllocError> {
        walk(self, ctx, trail, report, h)
    }
}
