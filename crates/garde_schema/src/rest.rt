//! Members, and then those of any other name.
ghost use Rattle.std.specs.Prelude.{◌≡◌, [], ◌∷◌, true, IfOk, MatchOption, OnOk};
ghost use Rattle.std.specs.List.{All};
ghost use Rattle.garde.specs.Visits.{Visited, ◌and◌};
ghost use Rattle.garde_schema.specs.Flattened.{others};
ghost use Rattle.garde_schema.specs.Forms.{both, forget, Sound};
ghost use Rattle.garde_schema.specs.Lists.{all_values};
ghost use Rattle.garde_schema.specs.Maps.{each_entry, entry_value, members_first};
ghost use Rattle.garde_schema.specs.Members.{members_in};

use crate::form::{Form, Members};
use crate::handler::FormI18n;
use crate::items::Items;
use crate::map::{Entries, read_entry};
use crate::names::Names;
use crate::tuples::pair;
use garde::{I18n, Report, Trail};
use garde_tape::{Tree, TreeMembers};
use std::alloc::AllocError;

/// These members, and every other member of the object, whose value has this form: a map under
/// `flatten`, as `Rest((Member("name", Text(())), Member("age", Whole(U8, ()))), Text(()))`.
///
/// The value is that of the members beside the names and values of the others, in the order of the
/// text. Where a name of these came before it is a fault under that name, each time, as in `Map`.
#[derive(Clone, Copy, Debug)]
pub struct Rest<M, F>(pub M, pub F);

// The next member whose name is not asked for.
fn next_other<'t, 'a, M: Members<'a>>(
    named: &M,
    left: &mut TreeMembers<'t, 'a>,
) -> Option<(&'a str, Tree<'t, 'a>)>
    ensures steps { MatchOption result (others (λ name. M.names named.now name) left.old ≡ [])
        (λ member. others (λ name. M.names named.now name) left.old
        ≡ (member.0.now, member.1) ∷ others (λ name. M.names named.now name) left.new) }
{
    while let Some((name, value)) = left.next() {
        if !named.names(name) {
            return Some((name, value));
        }
    }
    None
}

// Reads the values of the members whose names are not asked for, each under its name. After one of
// another form the others are read for their faults.
pub(crate) fn read_others<'t, 'a, M: Members<'a>, F: Form<'a>, H: I18n + FormI18n>(
    named: &M,
    form: &F,
    members: TreeMembers<'t, 'a>,
    trail: &mut Trail<'a>,
    report: &mut Report,
    h: &H,
) -> Result<Option<Entries<'a, F::Out>>, AllocError>
    ensures answer { Visited (each_entry (H.form_text h.now)
        (λ v. F.visits form.now (H.form_text h.now) v)
        (members_first (others (λ name. M.names named.now name) members.entry)))
        (H.text h.now) trail.old trail.new report.old report.new (forget result) }
    ensures value { IfOk result (λ out. out ≡ all_values (entry_value (λ v. F.value form.now v))
        (members_first (others (λ name. M.names named.now name) members.entry))) }
    ensures sound { OnOk result (Sound (each_entry (H.form_text h.now)
        (λ v. F.visits form.now (H.form_text h.now) v)
        (members_first (others (λ name. M.names named.now name) members.entry)))
        (λ out. All (λ e. F.keeps form.now e.1) out)
        (all_values (entry_value (λ v. F.value form.now v))
        (members_first (others (λ name. M.names named.now name) members.entry)))) }
{
    let alloc = trail.alloc();
    let mut left = members;
    let mut names = Names::new(alloc);
    let mut values = Some(Items::new(alloc));
    while let Some((name, value)) = next_other(named, &mut left) {
        let came = names.add(name)?;
        values = read_entry(form, came, name, &value, values, trail, report, h)?;
    }
    Ok(values)
}

// The same of an object.
fn read_rest<'t, 'a, M: Members<'a>, F: Form<'a>, H: I18n + FormI18n>(
    named: &M,
    form: &F,
    object: &Tree<'t, 'a>,
    trail: &mut Trail<'a>,
    report: &mut Report,
    h: &H,
) -> Result<Option<Entries<'a, F::Out>>, AllocError>
    ensures answer { Visited (each_entry (H.form_text h.now)
        (λ v. F.visits form.now (H.form_text h.now) v)
        (members_first (others (λ name. M.names named.now name) (members_in object.now))))
        (H.text h.now) trail.old trail.new report.old report.new (forget result) }
    ensures value { IfOk result (λ out. out ≡ all_values (entry_value (λ v. F.value form.now v))
        (members_first (others (λ name. M.names named.now name) (members_in object.now)))) }
    ensures sound { OnOk result (Sound (each_entry (H.form_text h.now)
        (λ v. F.visits form.now (H.form_text h.now) v)
        (members_first (others (λ name. M.names named.now name) (members_in object.now))))
        (λ out. All (λ e. F.keeps form.now e.1) out)
        (all_values (entry_value (λ v. F.value form.now v))
        (members_first (others (λ name. M.names named.now name) (members_in object.now))))) }
{
    let alloc = trail.alloc();
    match object.members() {
        Some(members) => read_others(named, form, members, trail, report, h),
        None => Ok(Some(Items::new(alloc))),
    }
}

impl<'a, M: Members<'a>, F: Form<'a>> Members<'a> for Rest<M, F> {
    type Out = (M::Out, Entries<'a, F::Out>);

    ghost visits = { λ all texts j. M.visits all.0 texts j
        and each_entry texts (λ v. F.visits all.1 texts v)
        (members_first (others (λ name. M.names all.0 name) (members_in j))) };

    ghost value = { λ all j. both (M.value all.0 j) (all_values (entry_value (λ v. F.value all.1 v))
        (members_first (others (λ name. M.names all.0 name) (members_in j)))) };

    ghost keeps = { λ all out. M.keeps all.0 out.0 × All (λ e. F.keeps all.1 e.1) out.1 };

    ghost names = { λ all name. true };

    fn read_members<'t, H: I18n + FormI18n>(
        &self,
        object: &Tree<'t, 'a>,
        trail: &mut Trail<'a>,
        report: &mut Report,
        h: &H,
    ) -> Result<Option<(M::Out, Entries<'a, F::Out>)>, AllocError> {
        let first = self.0.read_members(object, trail, report, h)?;
        let rest = read_rest(&self.0, &self.1, object, trail, report, h)?;
        Ok(pair(first, rest))
    }

    fn names(&self, _name: &str) -> bool {
        true
    }
}
