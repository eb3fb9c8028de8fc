//! A handler whose texts are Czech.
ghost use Rattle.example_order.specs.CzechText.{czech_form_text, czech_text};

use garde::I18n;
use garde::i18n::{InvalidCreditCard, InvalidPhoneNumber, InvalidUrl, IpKind, Named};
use garde_schema::{FormFault, FormI18n};
use std::alloc::{AllocError, Global};
use std::borrow::CowStr;

const SHORTER: &str = "délka je menší než";

const LONGER: &str = "délka je větší než";

const LESS: &str = "hodnota je menší než";

const GREATER: &str = "hodnota je větší než";

const PREFIX: &str = "text nezačíná na";

const OTHER: &str = "neplatná hodnota";

const FORM: &str = "jiný druh hodnoty";

const RANGE: &str = "číslo mimo rozsah";

const MISSING: &str = "položka chybí";

const REPEATED: &str = "položka se opakuje";

const UNKNOWN: &str = "neznámá položka";

/// A handler whose texts are Czech. The rules that no form here asks have one text.
#[derive(Drop, Clone, Copy)]
pub struct Czech;

impl I18n for Czech {
    ghost text = { λ _ datum. czech_text datum };

    fn length_lower_than(&self, alloc: Global, min: usize) -> Result<CowStr<'static>, AllocError> {
        Ok(CowStr::Owned(format!(in alloc; "{SHORTER} {min}")?))
    }

    fn length_greater_than(
        &self,
        alloc: Global,
        max: usize,
    ) -> Result<CowStr<'static>, AllocError> {
        Ok(CowStr::Owned(format!(in alloc; "{LONGER} {max}")?))
    }

    fn range_lower_than(&self, alloc: Global, min: &str) -> Result<CowStr<'static>, AllocError> {
        Ok(CowStr::Owned(format!(in alloc; "{LESS} {min}")?))
    }

    fn range_greater_than(&self, alloc: Global, max: &str) -> Result<CowStr<'static>, AllocError> {
        Ok(CowStr::Owned(format!(in alloc; "{GREATER} {max}")?))
    }

    fn credit_card_invalid(
        &self,
        _alloc: Global,
        _reason: InvalidCreditCard,
    ) -> Result<CowStr<'static>, AllocError> {
        Ok(CowStr::Borrowed(OTHER))
    }

    fn pattern_no_match(&self, _alloc: Global, _text: &str) -> Result<CowStr<'static>, AllocError> {
        Ok(CowStr::Borrowed(OTHER))
    }

    fn contains_missing(&self, _alloc: Global, _text: &str) -> Result<CowStr<'static>, AllocError> {
        Ok(CowStr::Borrowed(OTHER))
    }

    fn url_invalid(
        &self,
        _alloc: Global,
        _reason: InvalidUrl,
    ) -> Result<CowStr<'static>, AllocError> {
        Ok(CowStr::Borrowed(OTHER))
    }

    fn prefix_missing(&self, alloc: Global, pattern: &str) -> Result<CowStr<'static>, AllocError> {
        Ok(CowStr::Owned(format!(in alloc; "{PREFIX} {pattern}")?))
    }

    fn suffix_missing(&self, _alloc: Global, _text: &str) -> Result<CowStr<'static>, AllocError> {
        Ok(CowStr::Borrowed(OTHER))
    }

    fn phone_number_invalid(
        &self,
        _alloc: Global,
        _reason: InvalidPhoneNumber,
    ) -> Result<CowStr<'static>, AllocError> {
        Ok(CowStr::Borrowed(OTHER))
    }

    fn ip_invalid(&self, _alloc: Global, _kind: IpKind) -> Result<CowStr<'static>, AllocError> {
        Ok(CowStr::Borrowed(OTHER))
    }

    fn matches_field_mismatch(
        &self,
        _alloc: Global,
        _field: &str,
    ) -> Result<CowStr<'static>, AllocError> {
        Ok(CowStr::Borrowed(OTHER))
    }

    fn ascii_invalid(&self, _alloc: Global) -> Result<CowStr<'static>, AllocError> {
        Ok(CowStr::Borrowed(OTHER))
    }

    fn alphanumeric_invalid(&self, _alloc: Global) -> Result<CowStr<'static>, AllocError> {
        Ok(CowStr::Borrowed(OTHER))
    }

    fn required_not_set(&self, _alloc: Global) -> Result<CowStr<'static>, AllocError> {
        Ok(CowStr::Borrowed(OTHER))
    }

    fn named(&self, _alloc: Global, _fault: Named<'_>) -> Result<CowStr<'static>, AllocError> {
        Ok(CowStr::Borrowed(OTHER))
    }
}

impl FormI18n for Czech {
    ghost form_text = { λ _ fault. czech_form_text fault };

    fn form_fault(&self, _alloc: Global, fault: FormFault) -> Result<CowStr<'static>, AllocError> {
        Ok(CowStr::Borrowed(match fault {
            FormFault::Wrong(_, _) => FORM,
            FormFault::OutOfRange(_) => RANGE,
            FormFault::Missing => MISSING,
            FormFault::Repeated => REPEATED,
            FormFault::Unknown => UNKNOWN,
            FormFault::NotOneOf | FormFault::RowLength => OTHER,
        }))
    }
}
