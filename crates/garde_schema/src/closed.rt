//! Objects with no further member.
ghost use Rattle.std.specs.Prelude.{◌≡◌};
ghost use Rattle.garde.specs.Visits.{Visited, ◌and◌};
ghost use Rattle.garde_schema.specs.Members.{unknown, unless_named, members_in};

use crate::fault::FormFault;
use crate::form::Members;
use crate::handler::FormI18n;
use crate::put::{put_under, with};
use garde::{I18n, Report, Trail};
use garde_tape::{Tree, TreeMembers};
use std::alloc::AllocError;

/// These members and no other: each that is not named is a fault under its name, after the faults of
/// the named, in the order of the tree.
#[derive(Clone, Copy, Debug)]
pub struct Closed<M>(pub M);

// Puts a fault under the name of a member that is not named.
fn check_name<'a, M: Members<'a>, H: I18n + FormI18n>(
    named: &M,
    name: &'a str,
    trail: &mut Trail<'a>,
    report: &mut Report,
    h: &H,
) -> Result<(), AllocError>
    ensures { Visited (unless_named (λ name. M.names named.now name) (H.form_text h.now) name.now)
        (H.text h.now) trail.old trail.new report.old report.new result }
{
    if named.names(name) {
        Ok(())
    } else {
        put_under(name, FormFault::Unknown, trail, report, h)
    }
}

// Puts a fault under the name of each of these members that is not named.
fn check_names<'t, 'a, M: Members<'a>, H: I18n + FormI18n>(
    named: &M,
    members: TreeMembers<'t, 'a>,
    trail: &mut Trail<'a>,
    report: &mut Report,
    h: &H,
) -> Result<(), AllocError>
    ensures { Visited (unknown (λ name. M.names named.now name) (H.form_text h.now) members.entry)
        (H.text h.now) trail.old trail.new report.old report.new result }
{
    let mut left = members;
    while let Some((name, _)) = left.next() {
        check_name(named, name, trail, report, h)?;
    }
    Ok(())
}

// Puts a fault under the name of each member of the object that is not named.
pub(crate) fn check_members<'t, 'a, M: Members<'a>, H: I18n + FormI18n>(
    named: &M,
    object: &Tree<'t, 'a>,
    trail: &mut Trail<'a>,
    report: &mut Report,
    h: &H,
) -> Result<(), AllocError>
    ensures { Visited
        (unknown (λ name. M.names named.now name) (H.form_text h.now) (members_in object.now))
        (H.text h.now) trail.old trail.new report.old report.new result }
{
    match object.members() {
        Some(members) => check_names(named, members, trail, report, h),
        None => Ok(()),
    }
}

impl<'a, M: Members<'a>> Members<'a> for Closed<M> {
    type Out = M::Out;

    ghost visits = { λ form texts j. M.visits form.0 texts j
        and unknown (λ name. M.names form.0 name) texts (members_in j) };

    ghost value = { λ form j. M.value form.0 j };

    ghost keeps = { λ form out. M.keeps form.0 out };

    ghost names = { λ form name. M.names form.0 name };

    fn read_members<'t, H: I18n + FormI18n>(
        &self,
        object: &Tree<'t, 'a>,
        trail: &mut Trail<'a>,
        report: &mut Report,
        h: &H,
    ) -> Result<Option<M::Out>, AllocError> {
        let value = self.0.read_members(object, trail, report, h)?;
        let told = check_members(&self.0, object, trail, report, h);
        with(told, value)
    }

    fn names(&self, name: &str) -> bool {
        self.0.names(name)
    }
}
