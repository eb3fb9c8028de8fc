//! Types whose values a library reads.
ghost use Rattle.std.specs.Prelude.{◌≡◌, Some, IfOk};
ghost use Rattle.garde.specs.Answers.{AnswersFirst};
ghost use Rattle.garde.specs.Validated.{IsValid};
ghost use Rattle.garde_schema.specs.Forms.{forget};

use garde::{FirstError, I18n, Stated};
use garde_schema::{FormI18n, Spelled, Tree};
use std::alloc::Global;

/// A type whose values are the bodies that a library checks. `tools/port-garde --library` writes how it is
/// read.
pub trait ReadTree<'a>: Spelled + Stated + Drop {
    /// Reads the tree of a body: the value that it spells, or at most so many faults of its form and of its
    /// rules, as `read_first` does. What the rules ask is known of the value.
    fn read_tree<'t, H: I18n + FormI18n>(
        alloc: Global,
        tree: &Tree<'t, 'a>,
        most: usize,
        h: &H,
    ) -> Result<Self, FirstError>
        ensures answer { AnswersFirst
            (⟦<Self as Spelled>⟧.spelled.visits (H.form_text h.now) tree.now) (H.text h.now)
            most (forget result) }
        ensures value { IfOk result (λ v. ⟦<Self as Spelled>⟧.spelled.value tree.now ≡ Some v) }
        ensures valid { IfOk result (λ v. IsValid ⟦<Self as Stated>⟧.visits v) };
}
