//! Work under a handler.
ghost use Rattle.std.specs.Prelude.{◌≡◌, IfOk};
ghost use Rattle.std.specs.Cow.{cow_str_bytes};
ghost use Rattle.garde_i18n.specs.Datum.{length_lower};

use super::czech::Czech;
use super::is_said;
use garde_i18n::{DefaultI18n, I18n, with_i18n};
use std::alloc::{AllocError, Global};
use std::borrow::CowStr;

/// The text of a length below `min`, asked under `handler`.
fn length_text_under<H: I18n + Drop>(
    alloc: Global,
    handler: H,
    min: usize,
) -> Result<CowStr<'static>, AllocError>
    ensures { IfOk result (λ s. cow_str_bytes s ≡ H.text handler (length_lower min)) }
{
    with_i18n(handler, |given| given.length_lower_than(alloc, min))
}

#[test]
fn hands_on_the_handler(rt: HostRuntime) {
    let alloc = rt.alloc();
    let few = "délka je menší než 3 znaky";
    let one = "délka je menší než 1 znak";
    let inner = "length is lower than 3";
    // The default handler, within work under another one.
    let within = with_i18n(Czech, |_| length_text_under(alloc, DefaultI18n, 3));
    assert!(rt;
        is_said(within, inner)
            && is_said(length_text_under(alloc, Czech, 3), few)
            && is_said(length_text_under(alloc, &Czech, 1), one)
    );
}
