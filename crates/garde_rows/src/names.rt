//! The columns that a table has to have.
ghost use Rattle.std.specs.Prelude.{◌≡◌, ⊤, Some};
ghost use Rattle.garde_report.specs.Part.{key_part};
ghost use Rattle.garde.specs.Visits.{Visited, none, under};
ghost use Rattle.garde_tape.specs.Look.{find_answer};
ghost use Rattle.garde_schema.specs.Members.{member_visits};
ghost use Rattle.garde_rows.specs.Rows.{each_known, is_among};

use garde::{I18n, Report, Trail};
use garde_schema::{Any, FormI18n, Member, Members, Tree};
use std::alloc::AllocError;

/// Members of these names, each of which has to be there once. Their values are not read.
#[derive(Clone, Copy, Debug)]
pub struct Names(pub &'static [&'static str]);

// Puts a fault under the name of a column that is missing or repeated.
fn check_name<'t, 'a, H: I18n + FormI18n>(
    name: &'a str,
    header: &Tree<'t, 'a>,
    trail: &mut Trail<'a>,
    report: &mut Report,
    h: &H,
) -> Result<(), AllocError>
    ensures { Visited (under (key_part name.now)
        (member_visits (H.form_text h.now) (λ _. none) (find_answer name.now header.now)))
        (H.text h.now) trail.old trail.new report.old report.new result }
{
    match Member(name, Any).read_members(header, trail, report, h) {
        Ok(_) => Ok(()),
        Err(refused) => Err(refused),
    }
}

// Puts a fault under the name of each of these columns that is missing or repeated.
fn check_names<'t, 'a, H: I18n + FormI18n>(
    names: &'static [&'static str],
    header: &Tree<'t, 'a>,
    trail: &mut Trail<'a>,
    report: &mut Report,
    h: &H,
) -> Result<(), AllocError>
    ensures { Visited (each_known names.now (H.form_text h.now) header.now)
        (H.text h.now) trail.old trail.new report.old report.new result }
{
    for name in names {
        check_name(name, header, trail, report, h)?;
    }
    Ok(())
}

impl<'a> Members<'a> for Names {
    type Out = ();

    ghost visits = { λ names texts j. each_known names.0.now texts j };

    ghost value = { λ _ _. Some tt };

    ghost keeps = { λ _ _. ⊤ };

    ghost names = { λ names name. is_among names.0.now name };

    fn read_members<'t, H: I18n + FormI18n>(
        &self,
        object: &Tree<'t, 'a>,
        trail: &mut Trail<'a>,
        report: &mut Report,
        h: &H,
    ) -> Result<Option<()>, AllocError> {
        match check_names(self.0, object, trail, report, h) {
            Ok(()) => Ok(Some(())),
            Err(refused) => Err(refused),
        }
    }

    fn names(&self, name: &str) -> bool {
        self.0.contains(&name)
    }
}
