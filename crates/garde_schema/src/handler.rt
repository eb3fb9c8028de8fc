//! Handlers, which give the faults of form their texts.
ghost use Rattle.std.specs.Prelude.{◌≡◌, ℕ, List, IfOk};
ghost use Rattle.std.specs.Cow.{cow_str_bytes};
ghost use Rattle.garde_schema.specs.declared.fault.FormFault.{FormFault};

use crate::fault::FormFault;
use std::alloc::{AllocError, Global};
use std::borrow::CowStr;

/// A handler, which gives the texts of the faults of form, by one method.
pub trait FormI18n {
    /// The text of a fault of form, as bytes of UTF-8.
    ghost form_text: { Self → FormFault → List ℕ };

    /// The text of a fault of form. It depends on the handler and on the fault alone. `AllocError` is
    /// the only error.
    fn form_fault(&self, alloc: Global, fault: FormFault) -> Result<CowStr<'static>, AllocError>
        ensures { IfOk result (λ s. cow_str_bytes s ≡ form_text self.now fault) };
}

/// A reference to a handler gives the texts of that handler.
impl<T: FormI18n> FormI18n for &T {
    ghost form_text = { λ handler fault. T.form_text handler.now fault };

    fn form_fault(&self, alloc: Global, fault: FormFault) -> Result<CowStr<'static>, AllocError> {
        (**self).form_fault(alloc, fault)
    }
}
