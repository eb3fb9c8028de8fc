//! Codes beside sentences, for the faults of form.
ghost use Rattle.garde_schema.specs.FormCode.{form_message};

use crate::code::name_of_kind;
use crate::fault::FormFault;
use crate::handler::FormI18n;
use garde_problem::{WithCodes, coded_message};
use std::alloc::{AllocError, Global};
use std::borrow::CowStr;

/// Codes and parameters beside the sentences of another handler: `wrong_form` with `wanted` and
/// `found`, `out_of_range` with `of`, `member_missing`. They are those of `CodeI18n`.
impl<H: FormI18n> FormI18n for WithCodes<H> {
    ghost form_text = { λ handler fault. form_message (λ f. H.form_text handler.0 f) fault };

    fn form_fault(&self, alloc: Global, fault: FormFault) -> Result<CowStr<'static>, AllocError> {
        let detail = self.0.form_fault(alloc, fault)?;
        let code = fault.code();
        let message = match fault {
            FormFault::Wrong(wanted, found) => coded_message(
                alloc,
                code,
                &detail,
                &[("wanted", wanted.code()), ("found", name_of_kind(found))],
            ),
            FormFault::OutOfRange(of) => coded_message(alloc, code, &detail, &[("of", of.code())]),
            _ => coded_message(alloc, code, &detail, &[]),
        };
        Ok(CowStr::Owned(message?))
    }
}
