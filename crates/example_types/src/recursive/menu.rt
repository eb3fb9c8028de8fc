//! Menus, which hold menus in a map.
ghost use Rattle.std.proofs.Common.{arith};
ghost use Rattle.garde.proofs.Author.{smaller_in};
ghost use Rattle.garde.specs.Fields.{between, bytes, field, in_map, is, nest_visits, str};
ghost use Rattle.example_types.specs.declared.recursive.menu.Menu.{out-Menu, size-Menu, size_is-Menu};

use garde::fields::{Field, Fields, Is};
use garde::recursive::{Recursive, walk};
use garde::{I18n, Report, Stated, Trail, Validate, length};
use std::alloc::AllocError;
use std::collections::BTreeMap;

/// A menu and the menus in it by their names, each with a label of 1 to 20 bytes.
#[derive(Drop)]
pub struct Menu {
    pub label: String,
    pub menus: BTreeMap<String, Menu>,
}

impl Recursive for Menu {
    type Context = ();

    type Children = BTreeMap<String, Menu>;

    ghost nest = { record {
      own = λ v _. field "label" (is (bytes (between 1 20) (str (out-Menu v).label)));
      name = "menus";
      children = λ v. in_map (out-Menu v).menus;
      size = size-Menu;
      smaller = λ v k x has. omega (arith, size_is-Menu v, smaller_in size-Menu _ _ has);
    } };

    fn children(&self) -> (&'static str, &BTreeMap<String, Menu>) {
        ("menus", &self.menus)
    }

    fn visit_own<'a, H: I18n>(
        &'a self,
        _ctx: &(),
        trail: &mut Trail<'a>,
        report: &mut Report,
        h: &H,
    ) -> Result<(), AllocError> {
        let Self { label, menus: _ } = self;
        Field("label", label, Is(length!(min = 1, max = 20))).visit(trail, report, h)
    }
}

impl Stated for Menu {
    type Context = ();

    ghost visits = { nest_visits ⟦<Menu as Recursive>⟧.nest };
}

impl Validate for Menu {
    fn validate_into<'a, H: I18n>(
        &'a self,
        ctx: &(),
        trail: &mut Trail<'a>,
        report: &mut Report,
        h: &H,
    ) -> Result<(), AllocError> {
        walk(self, ctx, trail, report, h)
    }
}
