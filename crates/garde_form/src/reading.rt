//! Reading the fields of a web form by a form.
ghost use Rattle.std.specs.Prelude.{◌≡◌, ◌≢◌, Some, Err, IfOk};
ghost use Rattle.garde.specs.Answers.{Answers};
ghost use Rattle.garde_schema.specs.Forms.{forget};
ghost use Rattle.garde_form.specs.WebForm.{field_texts, form_json};

use crate::lists::named_texts;
use crate::members::form_members;
use crate::web_form::FormField;
use garde::{I18n, ValidateError};
use garde_schema::{Form, FormI18n, Tree, read};
use std::alloc::Global;

/// Reads the fields of a web form by a form: the value that they spell, or a report of every fault of
/// form and of the rules.
///
/// The form sees an object with a member for each field, in their order, whose value is a text. The
/// fields of each name of `lists` are one member, which stands at the place of the first: its value is
/// the list of their texts, in their order. A name of which no field comes is no member, and a field of
/// another name that comes twice is a member that comes twice. The value borrows from the fields.
///
/// No reason is promised for `ValidateError::Memory`, since the members are listed first.
pub fn read_form<'a, F: Form<'a>, H: I18n + FormI18n>(
    alloc: Global,
    fields: &'a [FormField<'_>],
    lists: &[&str],
    form: &F,
    h: &H,
) -> Result<F::Out, ValidateError>
    ensures answer { result ≢ Err ValidateError.Memory
        → Answers (F.visits form.now (H.form_text h.now) (form_json lists.now (field_texts fields.now)))
        (H.text h.now) (forget result) }
    ensures value { IfOk result (λ out.
        F.value form.now (form_json lists.now (field_texts fields.now)) ≡ Some out) }
    ensures keeps { IfOk result (λ out. F.keeps form.now out) }
{
    let Ok(lists) = named_texts(alloc, fields, lists) else {
        return Err(ValidateError::Memory);
    };
    let Ok(members) = form_members(alloc, fields, lists.as_slice()) else {
        return Err(ValidateError::Memory);
    };
    read(alloc, form, &Tree::fields(members.as_slice()), h)
}
