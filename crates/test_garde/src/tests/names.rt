//! A list of names that may be missing, walked twice.
ghost use Rattle.garde.specs.Fields.{◌and◌, ascii, at_least, bytes, each, each_of_option, field, is, items, required, slice, str};

use garde::fields::{Ascii, Each, Field, Fields, Is, Length, Required};
use garde::{I18n, Report, Stated, Trail, Validate};
use std::alloc::AllocError;

/// One name at least, each of them set, of ASCII and not empty.
#[derive(Drop)]
pub struct Names {
    pub items: Vec<Option<String>>,
}

impl Stated for Names {
    type Context = ();

    ghost visits = { λ v _.
        field "items" (is (items (at_least 1) (slice v.items))
        and each (λ name. is (required name)) (slice v.items)
        and each (λ name. each_of_option (λ text. is (ascii (str text)) and is (bytes (at_least 1) (str text))) name) (slice v.items)) };
}

impl Validate for Names {
    fn validate_into<'a, H: I18n>(
        &'a self,
        _ctx: &(),
        trail: &mut Trail<'a>,
        report: &mut Report,
        h: &H,
    ) -> Result<(), AllocError> {
        let Self { items } = self;
        let not_empty = Is(Length {
            min: 1,
            max: usize::MAX,
        });
        let text = (Is(Ascii), not_empty);
        let rules = (not_empty, Each(Is(Required)), Each(Each(text)));
        Field("items", items, rules).visit(trail, report, h)
    }
}
