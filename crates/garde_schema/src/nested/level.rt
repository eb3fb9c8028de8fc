//! The steps of the walk over objects that hold objects of the same form.
ghost use Rattle.std.specs.Prelude.{◌≡◌, [], ◌∷◌, ◌<◌, ◌≤◌, ◌^◌, ℕ, List, length, option_map, IfOk, IfSome, MatchOption, OnErr, OnOk};
ghost use Rattle.json.specs.Json.{Json};
ghost use Rattle.garde_i18n.specs.Datum.{Datum};
ghost use Rattle.garde_report.specs.Part.{key_part, index_part};
ghost use Rattle.garde_report.specs.Trace.{Trace, IsTrace, with_component, without_last};
ghost use Rattle.garde.specs.Visits.{Visited};
ghost use Rattle.garde_schema.specs.Forms.{both, forget, Sound};
ghost use Rattle.garde_schema.specs.Nested.{below, Parts};

use garde::Report;
use std::alloc::{AllocError, Global};

/// What is known of an object before those in it are read: the value of its own members, and the
/// objects in it, each where it is there.
#[derive(Drop)]
pub(super) struct Begun<O, I> {
    pub(super) own: Option<O>,
    pub(super) below: Option<I>,
}

/// The steps of the walk, at one form and one handler.
///
/// It is a trait with types of its own, and not the form itself, since the prover rejects a function
/// that calls itself where a bound names a lifetime, as `Members<'a>` does.
pub(super) trait Level {
    /// A tree.
    type Tree: Drop;

    /// The items of a list that are left.
    type Trees: Drop;

    /// The way to the tree that is read.
    type Trail;

    /// The value of an object's own members.
    type Own: Drop;

    ghost json: { Self.Tree → Json };

    ghost jsons: { Self.Trees → List Json };

    ghost trace: { Self.Trail → Trace };

    /// The texts of the handler.
    ghost text: { Self → Datum → List ℕ };

    /// What is asked of an object and read of it, without the objects in it.
    ghost parts: { Self → Parts Self.Own };

    /// What the way allocates by.
    fn alloc(&self, trail: &Self::Trail) -> Global;

    /// Reads the object's own members, and looks its list up.
    fn begin(
        &self,
        tree: &Self::Tree,
        trail: &mut Self::Trail,
        report: &mut Report,
    ) -> Result<Begun<Self::Own, Self::Trees>, AllocError>
        ensures answer { Visited ((parts self.now).first (json tree.now)) (text self.now)
            (trace trail.old) (trace trail.new) report.old report.new (forget result) }
        ensures own { IfOk result (λ begun. begun.own ≡ (parts self.now).own (json tree.now)) }
        ensures below { IfOk result (λ begun.
            option_map (λ items. jsons items) begun.below ≡ below (parts self.now).name (json tree.now)) }
        ensures bound { IfOk result (λ begun.
            IfSome begun.below (λ items. length (jsons items) < 2 ^ 64)) }
        ensures sound { OnOk result (Sound ((parts self.now).first (json tree.now))
            (λ both. (parts self.now).keeps both.0)
            (both ((parts self.now).own (json tree.now)) (below (parts self.now).name (json tree.now)))) };

    /// Reports the members that are unknown.
    fn end(
        &self,
        tree: &Self::Tree,
        trail: &mut Self::Trail,
        report: &mut Report,
    ) -> Result<(), AllocError>
        ensures { Visited ((parts self.now).last (json tree.now)) (text self.now)
            (trace trail.old) (trace trail.new) report.old report.new result };

    /// Goes down to the list.
    fn enter(&self, trail: &mut Self::Trail) -> Result<(), AllocError>
        ensures ok { OnOk result
            (trace trail.new ≡ with_component (trace trail.old) (key_part (parts self.now).name)) }
        ensures err { OnErr result (trace trail.new ≡ trace trail.old) }
        ensures full { OnErr result (8 ≤ length (trace trail.old).components) }
        ensures valid { IsTrace (trace trail.old) };

    /// Goes down to an item of the list.
    fn enter_item(&self, index: usize, trail: &mut Self::Trail) -> Result<(), AllocError>
        ensures ok { OnOk result
            (trace trail.new ≡ with_component (trace trail.old) (index_part index)) }
        ensures err { OnErr result (trace trail.new ≡ trace trail.old) }
        ensures full { OnErr result (8 ≤ length (trace trail.old).components) }
        ensures valid { IsTrace (trace trail.old) };

    /// Goes back up.
    fn leave(&self, trail: &mut Self::Trail)
        requires { 0 < length (trace trail.old).components }
        ensures { trace trail.new ≡ without_last (trace trail.old) };

    /// The next item.
    fn next(&self, items: &mut Self::Trees) -> Option<Self::Tree>
        ensures { MatchOption result ((jsons items.old ≡ []) × (jsons items.new ≡ []))
            (λ item. jsons items.old ≡ json item ∷ jsons items.new) };
}
