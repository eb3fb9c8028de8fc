//! Comments, which hold their replies in a vector.
ghost use Rattle.std.proofs.Common.{arith};
ghost use Rattle.garde.proofs.Author.{smaller_in};
ghost use Rattle.garde.specs.Fields.{between, chars, field, in_vec, is, nest_visits, str};
ghost use Rattle.example_types.specs.declared.recursive.comment.Comment.{out-Comment, size-Comment, size_is-Comment};

use garde::fields::{Field, Fields, Is};
use garde::recursive::{Recursive, walk};
use garde::{I18n, Report, Stated, Trail, Validate, length};
use std::alloc::AllocError;

/// A comment and the replies to it, each with a text of 1 to 280 characters.
#[derive(Drop)]
pub struct Comment {
    pub text: String,
    pub replies: Vec<Comment>,
}

impl Recursive for Comment {
    type Context = ();

    type Children = Vec<Comment>;

    ghost nest = { record {
      own = λ v _. field "text" (is (chars (between 1 280) (str (out-Comment v).text)));
      name = "replies";
      children = λ v. in_vec (out-Comment v).replies;
      size = size-Comment;
      smaller = λ v k x has. omega (arith, size_is-Comment v, smaller_in size-Comment _ _ has);
    } };

    fn children(&self) -> (&'static str, &Vec<Comment>) {
        ("replies", &self.replies)
    }

    fn visit_own<'a, H: I18n>(
        &'a self,
        _ctx: &(),
        trail: &mut Trail<'a>,
        report: &mut Report,
        h: &H,
    ) -> Result<(), AllocError> {
        let Self { text, replies: _ } = self;
        let asked = Is(length!(chars, min = 1, max = 280));
        Field("text", text, asked).visit(trail, report, h)
    }
}

impl Stated for Comment {
    type Context = ();

    ghost visits = { nest_visits ⟦<Comment as Recursive>⟧.nest };
}

impl Validate for Comment {
    fn validate_into<'a, H: I18n>(
        &'a self,
        ctx: &(),
        trail: &mut Trail<'a>,
        report: &mut Report,
        h: &H,
    ) -> Result<(), AllocError> {
        walk(self, ctx, trail, report, h)
    }
}
