//! The steps over trees of a tape.
ghost use Rattle.std.specs.Prelude.{◌≡◌, ◌<◌, ◌^◌, length, IfOk};
ghost use Rattle.garde_schema.specs.Nested.{first_visits, last_visits, list_in, own_value};

use super::level::{Begun, Level};
use crate::closed::check_members;
use crate::fault::{FormFault, Wanted};
use crate::form::Members;
use crate::handler::FormI18n;
use crate::optional::Optional;
use crate::put::{put, put_under, with};
use crate::simple::Any;
use garde::{Component, I18n, Report, Trail};
use garde_tape::{Found, Tree, TreeItems};
use std::alloc::{AllocError, Global};

/// The parts of the form, whether it is closed, the handler, and the tree that the walk begins at.
#[derive(Drop)]
pub(super) struct Way<'t, 'r, 'f, 'h, 'a, M, H> {
    pub(super) name: &'a str,
    pub(super) members: &'f M,
    pub(super) closed: bool,
    pub(super) h: &'h H,
    pub(super) tree: &'r Tree<'t, 'a>,
}

// The items of the list under this name, or what is wrong with the member of this name.
fn items_in<'t, 'a>(object: &Tree<'t, 'a>, name: &str) -> Result<TreeItems<'t, 'a>, FormFault>
    ensures list { result ≡ list_in name.now object.now }
    ensures bound { IfOk result (λ items. length items < 2 ^ 64) }
{
    match object.find(name) {
        Found::Once(value) => match value.items() {
            Some(items) => Ok(items),
            None => Err(FormFault::Wrong(Wanted::List, value.kind())),
        },
        Found::Missing => Err(FormFault::Missing),
        Found::Repeated => Err(FormFault::Repeated),
    }
}

impl<'t, 'r, 'f, 'h, 'a: 't, M: Members<'a>, H: I18n + FormI18n> Level
    for Way<'t, 'r, 'f, 'h, 'a, M, H> {
    type Tree = Tree<'t, 'a>;

    type Trees = TreeItems<'t, 'a>;

    type Trail = Trail<'a>;

    type Own = M::Out;

    ghost json = { λ tree. tree };

    ghost jsons = { λ items. items };

    ghost trace = { λ trail. trail };

    ghost text = { λ way. H.text way.h.now };

    ghost parts = { λ way. record {
      name = way.name.now;
      first = λ j. first_visits way.name.now (M.visits way.members.now (H.form_text way.h.now)) (H.form_text way.h.now) j;
      last = λ j. last_visits way.closed way.name.now (M.names way.members.now) (H.form_text way.h.now) j;
      own = λ j. own_value (M.value way.members.now) j;
      keeps = λ own. M.keeps way.members.now own;
    } };

    fn alloc(&self, trail: &Trail<'a>) -> Global {
        trail.alloc()
    }

    fn begin(
        &self,
        tree: &Tree<'t, 'a>,
        trail: &mut Trail<'a>,
        report: &mut Report,
    ) -> Result<Begun<M::Out, TreeItems<'t, 'a>>, AllocError> {
        let Some(_) = tree.members() else {
            let fault = FormFault::Wrong(Wanted::Object, tree.kind());
            let nothing = Begun {
                own: None,
                below: None,
            };
            return with(put(fault, trail, report, self.h), nothing);
        };
        let own = self.members.read_members(tree, trail, report, self.h)?;
        match items_in(tree, self.name) {
            Ok(items) => Ok(Begun {
                own,
                below: Some(items),
            }),
            Err(fault) => {
                let nothing = Begun { own, below: None };
                with(put_under(self.name, fault, trail, report, self.h), nothing)
            }
        }
    }

    fn end(
        &self,
        tree: &Tree<'t, 'a>,
        trail: &mut Trail<'a>,
        report: &mut Report,
    ) -> Result<(), AllocError> {
        if self.closed {
            let known = (self.members, Optional(self.name, Any));
            check_members(&known, tree, trail, report, self.h)
        } else {
            Ok(())
        }
    }

    fn enter(&self, trail: &mut Trail<'a>) -> Result<(), AllocError> {
        trail.push(Component::key(self.name))
    }

    fn enter_item(&self, index: usize, trail: &mut Trail<'a>) -> Result<(), AllocError> {
        trail.push(Component::index(index))
    }

    fn leave(&self, trail: &mut Trail<'a>) {
        trail.pop();
    }

    fn next(&self, items: &mut TreeItems<'t, 'a>) -> Option<Tree<'t, 'a>> {
        items.next()
    }
}
