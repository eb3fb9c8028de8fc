//! Maps under rules of their names.
ghost use Rattle.std.specs.Prelude.{◌≡◌};
ghost use Rattle.garde.specs.Visits.{Visited, Known, ◌and◌};
ghost use Rattle.garde_schema.specs.Maps.{each_key, names_of};
ghost use Rattle.garde_schema.specs.RulesOnValue.{rules_on_value};

use crate::count::Count;
use crate::form::Form;
use crate::handler::FormI18n;
use crate::map::Entries;
use crate::map_under::MapUnder;
use crate::put::with;
use crate::text_ref::TextRef;
use garde::fields::{Rules, ask_under};
use garde::{Component, I18n, Report, Trail};
use garde_tape::Tree;
use std::alloc::AllocError;

/// A map of this form, and then rules of each of its names: the form and the rules. One under no rule
/// of how many members it has is `MapUnder((), form)`.
///
/// The rules are asked after all of the map, and only where it has its form: no value has another
/// form, and no name is repeated. What they find in a name is under that name, as the faults of its
/// value are.
#[derive(Clone, Copy, Debug)]
pub struct Keys<C, F, R>(pub MapUnder<C, F>, pub R);

// Asks the rules of each name, under itself.
fn ask_each<'a, T, R: Rules<TextRef<'a>>, H: I18n>(
    rules: &R,
    entries: &Entries<'a, T>,
    trail: &mut Trail<'a>,
    report: &mut Report,
    h: &H,
) -> Result<(), AllocError>
    ensures { Visited (each_key (λ name. R.asks rules.now name) (names_of entries.now)) (H.text h.now)
        trail.old trail.new report.old report.new result }
{
    let entries = entries.as_slice();
    for entry in entries {
        let (name, _) = entry;
        let place = Component::key(name.text());
        ask_under(place, rules, name, trail, report, h)?;
    }
    Ok(())
}

// Asks the rules of the names, where there is a map.
fn ask_names<'a, T, R: Rules<TextRef<'a>>, H: I18n>(
    rules: &R,
    value: &Option<Entries<'a, T>>,
    trail: &mut Trail<'a>,
    report: &mut Report,
    h: &H,
) -> Result<(), AllocError>
    ensures { Visited
        (rules_on_value (λ v. each_key (λ name. R.asks rules.now name) (names_of v)) value.now)
        (H.text h.now) trail.old trail.new report.old report.new result }
{
    match value {
        Some(entries) => ask_each(rules, entries, trail, report, h),
        None => Ok(()),
    }
}

impl<'a, C: Rules<Count>, F: Form<'a>, R: Rules<TextRef<'a>>> Form<'a> for Keys<C, F, R> {
    type Out = Entries<'a, F::Out>;

    ghost visits = { λ form texts j. ⟦<MapUnder<C, F> as Form<'a>>⟧.visits form.0 texts j
        and rules_on_value (λ v. each_key (λ name. R.asks form.1 name) (names_of v))
        (⟦<MapUnder<C, F> as Form<'a>>⟧.value form.0 j) };

    ghost value = { λ form j. ⟦<MapUnder<C, F> as Form<'a>>⟧.value form.0 j };

    ghost keeps = { λ form out. ⟦<MapUnder<C, F> as Form<'a>>⟧.keeps form.0 out
        × Known (each_key (λ name. R.asks form.1 name) (names_of out)) };

    fn read<'t, H: I18n + FormI18n>(
        &self,
        tree: &Tree<'t, 'a>,
        trail: &mut Trail<'a>,
        report: &mut Report,
        h: &H,
    ) -> Result<Option<Entries<'a, F::Out>>, AllocError> {
        let value = self.0.read(tree, trail, report, h)?;
        let told = ask_names(&self.1, &value, trail, report, h);
        with(told, value)
    }
}
