//! The fields of a web form.
ghost use Rattle.std.specs.Prelude.{◌≡◌, IfOk};
ghost use Rattle.garde_form.specs.WebForm.{fields_in, field_texts};

use form_urlencoded::parse;
use std::alloc::{AllocError, Global};
use std::borrow::CowStr;

/// The decoded name and the decoded text of a field of a web form.
pub type FormField<'a> = (CowStr<'a>, CowStr<'a>);

/// The fields of a web form (`application/x-www-form-urlencoded`, the URL Standard, section 5), in
/// their order. A field without `=` has the empty text. Bytes that are no UTF-8 become U+FFFD. No body
/// is rejected. What needs no decoding borrows from the body.
///
/// # Errors
///
/// `AllocError`, where memory runs out.
pub fn form_fields(alloc: Global, body: &[u8]) -> Result<Vec<FormField<'_>>, AllocError>
    ensures { IfOk result (λ fields. field_texts fields.items ≡ fields_in body.now) }
{
    let mut fields = Vec::new(alloc);
    for pair in parse(alloc, body) {
        let field = pair?;
        fields.push(field)?;
    }
    Ok(fields)
}
