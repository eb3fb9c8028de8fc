//! JSON values that are kept as what they were.
ghost use Rattle.std.specs.Prelude.{◌≡◌, Some, None, IsErr};
ghost use Rattle.json.specs.Value.{value_view};
ghost use Rattle.garde.specs.Visits.{Known, Visited, found, may_allocate};
ghost use Rattle.garde_schema.specs.Forms.{forget};

mod copy;

use crate::form::Form;
use crate::handler::FormI18n;
use crate::put::with;
use copy::copy_value;
use garde::{I18n, Report, RuleError, Trail};
use garde_tape::Tree;
use json::Value;
use std::alloc::AllocError;
use std::marker::Model;

/// A JSON value that was read, of whatever kind. A contract sees the JSON value itself. Its texts, the
/// names of its members and its numbers borrow from the input, and its lists and objects are its own.
#[derive(Debug, Drop)]
pub struct KeptValue<'a> {
    value: Value<'a>,
}

impl<'a> Model for KeptValue<'a> {
    ghost use Rattle.json.specs.Json.{Json};
    ghost use Rattle.garde_tape.specs.Code.{json_code};

    ghost Value = { Json };

    ghost coded = { json_code };

    ghost use Rattle.json.specs.Value.{value_view};

    ghost view = { λ kept. value_view kept.value };
}

impl<'a> KeptValue<'a> {
    /// The value as the enum of the toolchain's `json`, which has `as_str`, `as_number`, `as_bool`,
    /// `is_null`, `at(index)` and `get(name)`. A match has the items of a list, and the members of an
    /// object in their order: a name that comes twice is there twice.
    pub fn value(&self) -> &Value<'a>
        ensures { value_view result.now ≡ self.now }
    {
        &self.value
    }
}

// Puts nothing.
fn put_nothing<'a, H: I18n>(
    trail: &mut Trail<'a>,
    report: &mut Report,
    _h: &H,
) -> Result<(), AllocError>
    ensures { Visited (may_allocate (found None)) (H.text _h.now)
        trail.old trail.new report.old report.new result }
{
    trail.put(report, Ok(()))
}

// Puts nothing, since memory ran out.
fn put_memory<'a, H: I18n>(
    trail: &mut Trail<'a>,
    report: &mut Report,
    _h: &H,
) -> Result<Option<KeptValue<'a>>, AllocError>
    ensures answer { Visited (may_allocate (found None)) (H.text _h.now)
        trail.old trail.new report.old report.new (forget result) }
    ensures failed { IsErr result }
{
    match trail.put(report, Err(RuleError::Memory)) {
        Ok(()) => unreachable!(),
        Err(refused) => Err(refused),
    }
}

/// Whatever there is. It is kept as a `KeptValue`, which allocates for each list and each object that
/// is not empty. `Any` reads nothing.
#[derive(Clone, Copy, Debug)]
pub struct Kept;

impl<'a> Form<'a> for Kept {
    type Out = KeptValue<'a>;

    ghost visits = { λ _ _ _. may_allocate (found None) };

    ghost value = { λ _ j. Some j };

    ghost keeps = { λ _ _. Known (may_allocate (found None)) };

    fn read<'t, H: I18n + FormI18n>(
        &self,
        tree: &Tree<'t, 'a>,
        trail: &mut Trail<'a>,
        report: &mut Report,
        h: &H,
    ) -> Result<Option<KeptValue<'a>>, AllocError> {
        let alloc = trail.alloc();
        match copy_value(alloc, tree) {
            Ok(value) => with(put_nothing(trail, report, h), Some(KeptValue { value })),
            Err(_) => put_memory(trail, report, h),
        }
    }
}
