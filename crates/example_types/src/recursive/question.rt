//! Questions with their answers, and the questions that follow from an answer: one type for both.
ghost use Rattle.std.proofs.Common.{arith};
ghost use Rattle.garde.proofs.Author.{smaller_in};
ghost use Rattle.garde.specs.Fields.{◌and◌, at_most, between, Bool, chars, false, field, in_vec, is, nest_visits, str, true, when};
ghost use Rattle.example_types.specs.declared.recursive.question.Entry.{out-Entry, size-Entry, size_is-Entry};
ghost use Rattle.example_types.specs.declared.recursive.question.Kind.TheVariants.{Answer, Question};

use garde::fields::{Field, Fields, Is, When};
use garde::recursive::{Recursive, walk};
use garde::{I18n, Report, Stated, Trail, Validate, length};
use std::alloc::AllocError;

/// What an entry of a survey is.
#[derive(Clone, Copy)]
pub enum Kind {
    Question,
    Answer,
}

/// An entry of a survey: a question with its answers, or an answer with the questions that follow.
/// A question has 1 to 200 characters, and an answer 40 at most.
#[derive(Drop)]
pub struct Entry {
    pub kind: Kind,
    pub text: String,
    pub entries: Vec<Entry>,
}

impl Recursive for Entry {
    type Context = ();

    type Children = Vec<Entry>;

    ghost nest = { record {
      own = λ v _. field "text"
          (when (elim (out-Entry v).kind as (λ _. Bool) [ Question ↦ true | _ ↦ false ]) (is (chars (between 1 200) (str (out-Entry v).text)))
          and when (elim (out-Entry v).kind as (λ _. Bool) [ Answer ↦ true | _ ↦ false ]) (is (chars (at_most 40) (str (out-Entry v).text))));
      name = "entries";
      children = λ v. in_vec (out-Entry v).entries;
      size = size-Entry;
      smaller = λ v k x has. omega (arith, size_is-Entry v, smaller_in size-Entry _ _ has);
    } };

    fn children(&self) -> (&'static str, &Vec<Entry>) {
        ("entries", &self.entries)
    }

    fn visit_own<'a, H: I18n>(
        &'a self,
        _ctx: &(),
        trail: &mut Trail<'a>,
        report: &mut Report,
        h: &H,
    ) -> Result<(), AllocError> {
        let Self {
            kind,
            text,
            entries: _,
        } = self;
        let asked = When(
            matches!(kind, Kind::Question),
            Is(length!(chars, min = 1, max = 200)),
        );
        let given = When(matches!(kind, Kind::Answer), Is(length!(chars, max = 40)));
        Field("text", text, (asked, given)).visit(trail, report, h)
    }
}

impl Stated for Entry {
    type Context = ();

    ghost visits = { nest_visits ⟦<Entry as Recursive>⟧.nest };
}

impl Validate for Entry {
    fn validate_into<'a, H: I18n>(
        &'a self,
        ctx: &(),
        trail: &mut Trail<'a>,
        report: &mut Report,
        h: &H,
    ) -> Result<(), AllocError> {
        walk(self, ctx, trail, report, h)
    }
}
