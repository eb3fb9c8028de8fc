//! The handlers of form.
ghost use Rattle.std.specs.Prelude.{◌≡◌};
ghost use Rattle.garde_catalog.specs.Forms.{catalog_form_text, form_place, least_of, greatest_of, wanted_message};
ghost use Rattle.garde_catalog.specs.Messages.{place_of};

use crate::catalog::Catalog;
use crate::messages::{FORM, WANTED};
use garde_i18n::Value;
use garde_schema::{FormFault, FormI18n, Integer, Wanted};
use std::alloc::{AllocError, Global};
use std::borrow::CowStr;

fn place_of_wanted(wanted: Wanted) -> usize
    ensures { result ≡ place_of (wanted_message wanted) }
{
    WANTED + wanted as usize
}

// The place of the message of a fault of form.
fn place_of(fault: FormFault) -> usize
    ensures { result ≡ form_place fault }
{
    match fault {
        FormFault::Wrong(wanted, _) => place_of_wanted(wanted),
        FormFault::OutOfRange(_) => FORM,
        FormFault::Missing => FORM + 1,
        FormFault::Repeated => FORM + 2,
        FormFault::Unknown => FORM + 3,
        FormFault::NotOneOf => FORM + 4,
        FormFault::RowLength => FORM + 5,
    }
}

fn least(of: Integer) -> &'static str
    ensures { result.now ≡ least_of of }
{
    match of {
        Integer::U8 => "0",
        Integer::U16 => "0",
        Integer::U32 => "0",
        Integer::U64 => "0",
        Integer::U128 => "0",
        Integer::I8 => "-128",
        Integer::I16 => "-32768",
        Integer::I32 => "-2147483648",
        Integer::I64 => "-9223372036854775808",
        Integer::I128 => "-170141183460469231731687303715884105728",
    }
}

fn greatest(of: Integer) -> &'static str
    ensures { result.now ≡ greatest_of of }
{
    match of {
        Integer::U8 => "255",
        Integer::U16 => "65535",
        Integer::U32 => "4294967295",
        Integer::U64 => "18446744073709551615",
        Integer::U128 => "340282366920938463463374607431768211455",
        Integer::I8 => "127",
        Integer::I16 => "32767",
        Integer::I32 => "2147483647",
        Integer::I64 => "9223372036854775807",
        Integer::I128 => "170141183460469231731687303715884105727",
    }
}

/// The texts of the table. What was found is not named.
impl FormI18n for Catalog<'_> {
    ghost form_text = { λ catalog fault. catalog_form_text catalog fault };

    fn form_fault(&self, alloc: Global, fault: FormFault) -> Result<CowStr<'static>, AllocError> {
        let place = place_of(fault);
        match fault {
            FormFault::OutOfRange(of) => {
                let (least, greatest) = (Value::Text(least(of)), Value::Text(greatest(of)));
                self.put_both(alloc, place, ("least", least), greatest)
            }
            _ => self.fixed(alloc, place),
        }
    }
}
