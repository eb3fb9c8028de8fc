//! The faults of form in English.
ghost use Rattle.std.specs.Prelude.{◌≡◌, IfOk, IsOk};
ghost use Rattle.std.specs.Cow.{cow_str_bytes};
ghost use Rattle.garde_schema.specs.FormText.{default_form_text};

use crate::fault::FormFault;
use crate::handler::FormI18n;
use garde::DefaultI18n;
use std::alloc::{AllocError, Global};
use std::borrow::CowStr;

/// English texts. They allocate nothing, and name what is wanted, not what was found.
impl FormI18n for DefaultI18n {
    ghost form_text = { λ _ fault. default_form_text fault };

    fn form_fault(&self, _alloc: Global, fault: FormFault) -> Result<CowStr<'static>, AllocError>
        ensures text { IfOk result (λ s. cow_str_bytes s ≡ default_form_text fault) }
        ensures given { IsOk result }
    {
        Ok(CowStr::Borrowed(fault.english()))
    }
}
