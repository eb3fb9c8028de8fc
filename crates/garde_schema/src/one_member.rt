//! Unions whose variant the only member names, as serde has them by default.
ghost use Rattle.std.specs.Prelude.{◌≡◌, Some, None, option_and_then, IfOk, IfErr};
ghost use Rattle.garde_report.specs.Part.{key_part};
ghost use Rattle.garde_schema.specs.declared.fault.FormFault.TheVariants as faults;
ghost use Rattle.garde_schema.specs.Forms.{formed};
ghost use Rattle.garde_schema.specs.Variants.{choice_or, chosen_visits, chosen_value};
ghost use Rattle.garde_schema.specs.OneMember.{only_name, only_fault};

use crate::fault::{FormFault, Wanted};
use crate::form::Form;
use crate::handler::FormI18n;
use crate::put::{put, with};
use crate::tagged::{chosen, read_chosen};
use crate::variants::Variants;
use garde::{I18n, Report, Trail};
use garde_tape::Tree;
use std::alloc::AllocError;
use std::marker::PhantomData;

/// An object with one member, whose name says which of the variants it is, for instance
/// `OneMember((Member("card", card), Member("cash", cash)), PhantomData)`, which reads
/// `{"card": ..}`. `PhantomData` names how long the tape is borrowed.
///
/// A name of no variant is a fault under it, and its value is not looked at. An object with no member
/// or with several is a fault, as is a value that is no object. The value is that of the variant.
#[derive(Clone, Copy, Debug)]
pub struct OneMember<'a, V>(pub V, pub PhantomData<&'a str>);

// The name of the only member, or what is wrong with a tree that has none or several.
fn name_in<'a>(tree: &Tree<'_, 'a>) -> Result<&'a str, FormFault>
    ensures name { IfOk result (λ name. only_name tree.now ≡ Some name.now) }
    ensures none { IfErr result (λ _. only_name tree.now ≡ None) }
    ensures fault { IfErr result (λ fault. fault ≡ only_fault tree.now) }
{
    let Some(mut members) = tree.members() else {
        return Err(FormFault::Wrong(Wanted::Object, tree.kind()));
    };
    match (members.next(), members.next()) {
        (Some((name, _)), None) => Ok(name),
        _ => Err(FormFault::Wrong(Wanted::OneMember, tree.kind())),
    }
}

impl<'a, V: Variants<'a>> Form<'a> for OneMember<'a, V> {
    type Out = V::Out;

    ghost visits = { λ form texts j. formed (texts (only_fault j))
        (λ name. chosen_visits (key_part name) texts (λ c. V.visits form.0 c name texts j)
        (choice_or faults.Unknown (V.chosen form.0 name))) (only_name j) };

    ghost value = { λ form j. option_and_then (λ name. chosen_value (λ c. V.value form.0 c j)
        (choice_or faults.Unknown (V.chosen form.0 name))) (only_name j) };

    ghost keeps = { λ form out. V.keeps form.0 out };

    fn read<'t, H: I18n + FormI18n>(
        &self,
        tree: &Tree<'t, 'a>,
        trail: &mut Trail<'a>,
        report: &mut Report,
        h: &H,
    ) -> Result<Option<V::Out>, AllocError> {
        match name_in(tree) {
            Ok(name) => {
                let choice = chosen(&self.0, name, FormFault::Unknown);
                read_chosen(&self.0, choice, name, tree, trail, report, h)
            }
            Err(fault) => with(put(fault, trail, report, h), None),
        }
    }
}
