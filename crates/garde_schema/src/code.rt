//! The faults of form as codes, for a program that reads them.
ghost use Rattle.std.specs.Prelude.{◌≡◌, IfOk, IsOk};
ghost use Rattle.std.specs.Cow.{cow_str_bytes};
ghost use Rattle.garde_schema.specs.FormCode.{code_form_text, has_no_param, kind_code};

use crate::fault::FormFault;
use crate::handler::FormI18n;
use garde::CodeI18n;
use garde_tape::Kind;
use std::alloc::{AllocError, Global};
use std::borrow::CowStr;

// The name of what was found.
pub(crate) fn name_of_kind(kind: Kind) -> &'static str
    ensures { result.now ≡ kind_code kind }
{
    match kind {
        Kind::Text => "Text",
        Kind::Number => "Number",
        Kind::Boolean => "Boolean",
        Kind::Null => "Null",
        Kind::List => "List",
        Kind::Object => "Object",
    }
}

/// Codes with their parameters, as `CodeI18n` gives them of rules: `member_missing`,
/// `out_of_range of=u8`, `wrong_form wanted=Text found=Number`. Those without a parameter allocate
/// nothing.
impl FormI18n for CodeI18n {
    ghost form_text = { λ _ fault. code_form_text fault };

    fn form_fault(&self, alloc: Global, fault: FormFault) -> Result<CowStr<'static>, AllocError>
        ensures text { IfOk result (λ s. cow_str_bytes s ≡ code_form_text fault) }
        ensures given { has_no_param fault → IsOk result }
    {
        let name = fault.code();
        match fault {
            FormFault::Wrong(wanted, found) => {
                let wanted = wanted.code();
                let found = name_of_kind(found);
                Ok(CowStr::Owned(format!(in alloc; "{name} wanted={wanted} found={found}")?))
            }
            FormFault::OutOfRange(of) => {
                let of = of.code();
                Ok(CowStr::Owned(format!(in alloc; "{name} of={of}")?))
            }
            _ => Ok(CowStr::Borrowed(name)),
        }
    }
}
