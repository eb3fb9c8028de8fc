//! The walk of a value.
ghost use Rattle.std.specs.Prelude.{◌≡◌, ◌<◌, ◌-◌, ◌^◌, IfOk, IsOk, IsTrue, Ok, OnOk, length, true};
ghost use Rattle.garde_i18n.specs.DefaultText.{default_text};
ghost use Rattle.garde_report.specs.Trace.{new_trace};
ghost use Rattle.garde.specs.Answers.{Headline, Answers, AnswersOn, NeedsNoMemory};
ghost use Rattle.garde.specs.Answers.{AnswersFirst, AnswersFirstOn, Decides, IsFirst};
ghost use Rattle.garde.specs.Visits.{Visited, Known};

pub use crate::first_error::FirstError;
use crate::no_text::NoText;
pub use crate::stated::Stated;
pub use crate::unvalidated::{IntoValidError, Unvalidated};
pub use crate::valid::Valid;
pub use crate::valid_under::ValidUnder;
pub use crate::validate_error::ValidateError;
use garde_i18n::{DefaultI18n, I18n};
use garde_report::{Report, Trail};
use std::alloc::{AllocError, Global};

/// A value that can be validated.
///
/// The type states by `Stated::visits` which faults a value has at which paths, and `validate_into`
/// is proved to report just these. The other calls come with it. `garde::fields` lets an author
/// state and write both as one expression.
pub trait Validate: Stated {
    /// Appends the faults of the value to the report, each at a path that begins with the
    /// components of the trail.
    ///
    /// Ok is returned whether or not there are faults, and the trail keeps its components.
    /// `AllocError` is returned where memory runs out: the report then holds what it held and a
    /// beginning of what would have been appended, and the trail has the components that it was
    /// handed. The report gets no more faults than the limit of the trail lets in, which
    /// `Trail::put` sees to: a `validate_into` that appends to the report itself is proved to keep
    /// to the limit.
    fn validate_into<'a, H: I18n>(
        &'a self,
        ctx: &Self::Context,
        trail: &mut Trail<'a>,
        report: &mut Report,
        h: &H,
    ) -> Result<(), AllocError>
        ensures { Visited (Self.visits self.now ctx.now) (H.text h.now)
            trail.old trail.new report.old report.new result };

    /// Validates under the default context, with the texts of `DefaultI18n`.
    final fn validate(&self, alloc: Global) -> Result<(), ValidateError>
    where
        Self::Context: Default + Drop,
        ensures answer { (c : Self.Context) × Self.Context.is_default c
            × Answers (Self.visits self.now c) default_text result }
        ensures sure { ((c : Self.Context) → Self.Context.is_default c
            → NeedsNoMemory (Self.visits self.now c) 0) → IsOk result }
        ensures known { (c : Self.Context) × Self.Context.is_default c
            × OnOk result (Known (Self.visits self.now c)) }
    {
        let ctx = Self::Context::default();
        self.validate_with(alloc, &ctx)
    }

    /// Validates under a context, with the texts of `DefaultI18n`.
    final fn validate_with(&self, alloc: Global, ctx: &Self::Context) -> Result<(), ValidateError>
        ensures answer { Answers (Self.visits self.now ctx.now) default_text result }
        ensures sure { NeedsNoMemory (Self.visits self.now ctx.now) 0 → IsOk result }
        ensures known { OnOk result (Known (Self.visits self.now ctx.now)) }
    {
        self.validate_with_i18n(alloc, ctx, &DefaultI18n)
    }

    /// Validates under a context, with the texts of a handler.
    final fn validate_with_i18n<H: I18n>(
        &self,
        alloc: Global,
        ctx: &Self::Context,
        h: &H,
    ) -> Result<(), ValidateError>
        ensures answer { Answers (Self.visits self.now ctx.now) (H.text h.now) result }
        ensures sure { NeedsNoMemory (Self.visits self.now ctx.now) 0 → IsOk result }
        ensures known { OnOk result (Known (Self.visits self.now ctx.now)) }
    {
        let mut trail = Trail::new(alloc);
        self.validate_on(ctx, &mut trail, h)
    }

    /// Validates a value that stands where the trail leads, under a context, with the texts of a
    /// handler.
    ///
    /// When it returns Ok, what the rules of the type ask under the context is known of the value.
    ///
    /// On a new trail it returns Ok exactly if the value has no fault, and else a report of every
    /// fault in the order of the walk; `Trail::nodes` is then how many path nodes that took: one
    /// for each component with a fault at or under it. `ValidateError::Memory` is returned only for
    /// a value with a fault, for one nested deeper than 8 components, or for one whose type states
    /// that its rules may allocate.
    final fn validate_on<'a, H: I18n>(
        &'a self,
        ctx: &Self::Context,
        trail: &mut Trail<'a>,
        h: &H,
    ) -> Result<(), ValidateError>
        ensures headline { trail.old ≡ new_trace
            → Headline (Self.visits self.now ctx.now) (H.text h.now) trail.new.nodes result }
        ensures on { AnswersOn (Self.visits self.now ctx.now) (H.text h.now)
            trail.old trail.new result }
        ensures sure { NeedsNoMemory (Self.visits self.now ctx.now) (length trail.old.components)
            → IsOk result }
        ensures known { OnOk result (Known (Self.visits self.now ctx.now)) }
    {
        match walk(self, ctx, usize::MAX, trail, h) {
            Ok(()) => Ok(()),
            Err(error) => Err(error.into_whole()),
        }
    }

    /// Validates under a context, with the texts of a handler, and reports at most so many faults.
    ///
    /// When it returns Ok, the value has no fault. `FirstError::All` has every fault of a value that
    /// has 1 to `most` of them. `FirstError::First` has the first `most` faults of a value that has
    /// more: none where `most` is 0. The walk ends after one fault more than `most`, so this is the
    /// call for input that may hold any number of them. `FirstError::Memory` is returned for the
    /// same reasons as `ValidateError::Memory`.
    final fn validate_first<H: I18n>(
        &self,
        alloc: Global,
        ctx: &Self::Context,
        most: usize,
        h: &H,
    ) -> Result<(), FirstError>
        ensures answer { AnswersFirst (Self.visits self.now ctx.now) (H.text h.now) most result }
        ensures sure { NeedsNoMemory (Self.visits self.now ctx.now) 0 → IsOk result }
        ensures known { OnOk result (Known (Self.visits self.now ctx.now)) }
    {
        let mut trail = Trail::new(alloc);
        self.validate_first_on(ctx, most, &mut trail, h)
    }

    /// Validates a value that stands where the trail leads, under a context, with the texts of a
    /// handler, and reports at most so many faults.
    ///
    /// It returns what `validate_first` returns, with paths that begin with the components of the
    /// trail. The trail keeps its components and its limit. The walk ends at the second fault after
    /// the first `most`, of which no path is made: `Trail::nodes` grows by no more than the first
    /// `most` faults and the next one take.
    final fn validate_first_on<'a, H: I18n>(
        &'a self,
        ctx: &Self::Context,
        most: usize,
        trail: &mut Trail<'a>,
        h: &H,
    ) -> Result<(), FirstError>
        ensures on { AnswersFirstOn (Self.visits self.now ctx.now) (H.text h.now) most
            trail.old trail.new result }
        ensures sure { NeedsNoMemory (Self.visits self.now ctx.now) (length trail.old.components)
            → IsOk result }
        ensures known { OnOk result (Known (Self.visits self.now ctx.now)) }
    {
        walk(self, ctx, most, trail, h)
    }

    /// Whether the value has no fault under a context.
    ///
    /// The walk ends at the second fault, and no rule of the library makes a text. `AllocError` is
    /// returned for the same reasons as `ValidateError::Memory`: so of a value with a fault it may
    /// be returned too, since the first fault goes into a report.
    final fn is_valid(&self, alloc: Global, ctx: &Self::Context) -> Result<bool, AllocError>
        ensures answer { Decides (Self.visits self.now ctx.now) result }
        ensures sure { NeedsNoMemory (Self.visits self.now ctx.now) 0 → result ≡ Ok true }
        ensures known { IfOk result (λ yes. IsTrue yes → Known (Self.visits self.now ctx.now)) }
    {
        match self.validate_first(alloc, ctx, 0, &NoText) {
            Ok(()) => Ok(true),
            Err(FirstError::All(_)) => Ok(false),
            Err(FirstError::First(_)) => Ok(false),
            Err(FirstError::Memory) => Err(AllocError),
        }
    }
}

// Walks the value with a report of its own, up to one fault more than so many. A report has fewer
// than `usize::MAX` faults, so that many are all.
fn walk<'a, T: Validate, H: I18n>(
    value: &'a T,
    ctx: &T::Context,
    most: usize,
    trail: &mut Trail<'a>,
    h: &H,
) -> Result<(), FirstError>
    ensures on { AnswersFirstOn (T.visits value.now ctx.now) (H.text h.now) most
        trail.old trail.new result }
    ensures whole { IsFirst result → most < 2 ^ 64 - 1 }
{
    let alloc = trail.alloc();
    let mut report = Report::new(alloc);
    let before = trail.limit(most.saturating_add(1));
    let walked = value.validate_into(ctx, trail, &mut report, h);
    trail.limit(before);
    if report.len() > most {
        report.truncate(most);
        return Err(FirstError::First(report));
    }
    match walked {
        Ok(()) if report.is_empty() => Ok(()),
        Ok(()) => Err(FirstError::All(report)),
        Err(_) => Err(FirstError::Memory),
    }
}
