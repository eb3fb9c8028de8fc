//! The walk of values that hold values of their own type.
ghost use Rattle.std.specs.Prelude.{◌≡◌, ◌<◌, codes};
ghost use Rattle.garde_report.specs.Part.{part_of};
ghost use Rattle.garde_rules.specs.Inner.{component_items};
ghost use Rattle.garde.specs.Visits.{Visited, under};
ghost use Rattle.garde.specs.Nest.{Nest, child_visits, nest_level, nest_visits};

use garde_i18n::I18n;
use garde_report::{Component, Report, Trail};
use garde_rules::inner::{self, Inner};
use std::alloc::AllocError;

/// A value that holds values of its own type in one of its fields.
///
/// An implementation states by `nest` what the value is made of. `walk` visits the value and those
/// in it, and calls itself once for each level.
pub trait Recursive {
    /// What the rules of the type may ask for, as bounds that are known only at run time.
    type Context;

    /// What holds the values of its own type: a vector of them, a map, or a user-defined
    /// collection.
    type Children: Inner<Self>;

    /// What the value is made of: its own visits without the values of its own type in it, these
    /// values, and the proof that each of them is smaller.
    ghost nest: { Nest Self Self.Context };

    /// The name of the field that holds the values of its own type, and what it holds.
    fn children(&self) -> (&'static str, &Self::Children)
        ensures name { result.0.now ≡ codes nest.name }
        ensures children { component_items (Self.Children.place result.1.now) (Self.Children.contents result.1.now)
            ≡ nest.children self.now };

    /// Appends the faults of the value to the report, but for those of the values of its own type
    /// in it.
    ///
    /// `AllocError` is returned where memory runs out, under the terms of
    /// `Validate::validate_into`.
    fn visit_own<'a, H: I18n>(
        &'a self,
        ctx: &Self::Context,
        trail: &mut Trail<'a>,
        report: &mut Report,
        h: &H,
    ) -> Result<(), AllocError>
        ensures { Visited (nest.own self.now ctx.now) (H.text h.now)
            trail.old trail.new report.old report.new result };
}

/// Visits a value, and then each value of its own type in it, under the name of the field that
/// holds these and the component of each.
///
/// It calls itself as deep as the value nests. `AllocError` is returned where memory runs out,
/// under the terms of `Validate::validate_into`.
pub fn walk<'a, T: Recursive + 'a, H: I18n>(
    value: &'a T,
    ctx: &T::Context,
    trail: &mut Trail<'a>,
    report: &mut Report,
    h: &H,
) -> Result<(), AllocError>
    ensures { Visited (nest_visits T.nest value.now ctx.now) (H.text h.now)
        trail.old trail.new report.old report.new result }
{
    value.visit_own(ctx, trail, report, h)?;
    let (name, children) = value.children();
    trail.push(Component::key(name))?;
    let outcome = inner::apply(
        children,
        trail,
        report,
        |child, component, trail, report|
            requires { T.nest.size child.now < T.nest.size value.now }
            ensures { Visited (under (part_of component.entry) (child_visits (nest_level T.nest ctx.entry.now) T.nest.size value.entry.now child.now))
                (H.text h.entry.now) trail.old trail.new report.old report.new result }
        {
            let _parent = value;
            trail.push(component)?;
            let outcome = walk(child, ctx, trail, report, h);
            trail.pop();
            outcome
        },
    );
    trail.pop();
    outcome
}
