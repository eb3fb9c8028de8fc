//! Forms of trees, and of the members of objects.
ghost use Rattle.std.specs.Prelude.{◌≡◌, ℕ, List, Bool, Option, IfOk, OnOk};
ghost use Rattle.json.specs.Json.{Json};
ghost use Rattle.garde.specs.Visits.{Visits, Visited};
ghost use Rattle.garde_schema.specs.Forms.{FormTexts, forget, Sound};

use crate::handler::FormI18n;
use garde::{I18n, Report, Trail};
use garde_tape::Tree;
use std::alloc::AllocError;

/// The form of a tree, with the rules on what has it, and the value that is read.
pub trait Form<'a> {
    /// The value.
    type Out: Drop;

    /// What a visit of a tree gives, where the faults of form have these texts: the faults of form
    /// and of rules, each at its path.
    ghost visits: { Self → FormTexts → Json → Visits };

    /// The value that a tree of this form spells. A tree of another form spells none.
    ghost value: { Self → Json → Option Self.Out };

    /// What the rules ask, said of the value.
    ghost keeps: { Self → Self.Out → Type 0 };

    /// Reads the tree, and appends its faults of form and of rules to the report.
    ///
    /// It returns `None` exactly where the tree has another form: then the report has a fault of form.
    /// It returns a value also where a rule found a fault, and `AllocError` where memory runs out,
    /// under the terms of `Validate::validate_into`.
    fn read<'t, H: I18n + FormI18n>(
        &self,
        tree: &Tree<'t, 'a>,
        trail: &mut Trail<'a>,
        report: &mut Report,
        h: &H,
    ) -> Result<Option<Self::Out>, AllocError>
        ensures answer { Visited (visits self.now (H.form_text h.now) tree.now) (H.text h.now)
            trail.old trail.new report.old report.new (forget result) }
        ensures value { IfOk result (λ out. out ≡ value self.now tree.now) }
        ensures sound { OnOk result (Sound (visits self.now (H.form_text h.now) tree.now)
            (keeps self.now) (value self.now tree.now)) };
}

/// What is asked of the members of an object, and the value that is read.
pub trait Members<'a> {
    /// The value.
    type Out: Drop;

    /// What a visit of the members of this object gives, as in `Form`.
    ghost visits: { Self → FormTexts → Json → Visits };

    /// The value that the members spell, if they have their forms.
    ghost value: { Self → Json → Option Self.Out };

    /// What the rules ask, said of the value.
    ghost keeps: { Self → Self.Out → Type 0 };

    /// Whether a member of this name is asked for.
    ghost names: { Self → List ℕ → Bool };

    /// Reads the members, as `Form::read` does.
    fn read_members<'t, H: I18n + FormI18n>(
        &self,
        object: &Tree<'t, 'a>,
        trail: &mut Trail<'a>,
        report: &mut Report,
        h: &H,
    ) -> Result<Option<Self::Out>, AllocError>
        ensures answer { Visited (visits self.now (H.form_text h.now) object.now) (H.text h.now)
            trail.old trail.new report.old report.new (forget result) }
        ensures value { IfOk result (λ out. out ≡ value self.now object.now) }
        ensures sound { OnOk result (Sound (visits self.now (H.form_text h.now) object.now)
            (keeps self.now) (value self.now object.now)) };

    /// Whether a member of this name is asked for.
    fn names(&self, name: &str) -> bool
        ensures { result ≡ names self.now name.now };
}
