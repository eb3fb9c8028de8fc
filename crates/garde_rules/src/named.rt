//! The texts of rules that have no method of a handler.
ghost use Rattle.std.specs.Prelude.{◌≡◌, ◌++◌, IfOk};
ghost use Rattle.std.specs.Cow.{cow_str_bytes};
ghost use Rattle.garde_i18n.specs.Datum.{named, with_param};

use garde_i18n::{Code, I18n, Named, Value};
use std::alloc::{AllocError, Global};
use std::borrow::CowStr;

// The handler's text of a fault with this code and this value as its parameter. The English text is
// `before` with the value behind it.
pub(crate) fn named_text<H: I18n>(
    alloc: Global,
    name: &'static str,
    param: &'static str,
    before: &str,
    value: &str,
    h: &H,
) -> Result<CowStr<'static>, AllocError>
    ensures { IfOk result (λ s. cow_str_bytes s
        ≡ H.text h.now (named (with_param name.now param.now value.now) (before.now ++ value.now))) }
{
    let english = format!(in alloc; "{before}{value}")?;
    let code = Code {
        name,
        param: Some((param, Value::Text(value))),
    };
    let fault = Named {
        code,
        english: english.as_str(),
    };
    h.named(alloc, fault)
}
