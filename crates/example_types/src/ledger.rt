//! Values under keys, in an order of their own.
ghost use Rattle.std.specs.Prelude.{map, refl};
ghost use Rattle.garde.specs.Fields.{ascii, each_value, is, key_place, str, text_key};

use garde::error::Component;
use garde::fields::{Ascii, Is, check_under};
use garde::rules::inner::{self, Inner};
use garde::{I18n, Report, Stated, Trail, Validate};
use std::alloc::AllocError;

/// Rows in the order in which they came, each under its key.
#[derive(Drop)]
pub struct Pairs<T> {
    pub rows: Vec<(String, T)>,
}

impl<T> Inner<T> for Pairs<T> {
    type Key = String;

    ghost contents = { λ v. map (λ row. row.1) v.rows.items };

    ghost place = { λ v. key_place v.rows.items };

    ghost keyed = { λ _ index. refl };

    fn count(&self) -> usize {
        self.rows.len()
    }

    fn item(&self, index: usize) -> Option<&T> {
        if index < self.rows.len() {
            Some(&self.rows[index].1)
        } else {
            None
        }
    }

    fn component<'a>(&'a self, index: usize) -> Component<'a> {
        Component::key(self.rows[index].0.as_str())
    }
}

/// Who owns what, in the order of entry. Each owner is of ASCII.
#[derive(Drop)]
pub struct Ledger {
    pub owners: Pairs<String>,
}

impl Stated for Ledger {
    type Context = ();

    ghost visits = { λ v _. each_value text_key (λ owner. is (ascii (str owner))) v.owners.rows.items };
}

impl Validate for Ledger {
    fn validate_into<'a, H: I18n>(
        &'a self,
        _ctx: &(),
        trail: &mut Trail<'a>,
        report: &mut Report,
        h: &H,
    ) -> Result<(), AllocError> {
        let Self { owners } = self;
        inner::apply(owners, trail, report, |owner, component, trail, report| {
            check_under(component, &Is(Ascii), owner, trail, report, h)
        })
    }
}
