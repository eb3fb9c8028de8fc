//! Objects that hold objects of the same form.
ghost use Rattle.std.specs.Prelude.{◌≡◌, List, IfOk, OnOk, true, false};
ghost use Rattle.garde.specs.Visits.{Visited};
ghost use Rattle.garde_schema.specs.Forms.{forget, Sound};
ghost use Rattle.garde_schema.specs.Nested.{nested_visits, nested_value, Kept};

mod level;
mod walk;
mod way;

use crate::closed::Closed;
use crate::form::{Form, Members};
use crate::handler::FormI18n;
use crate::items::Items;
use garde::{I18n, Report, Trail};
use garde_tape::Tree;
use std::alloc::AllocError;
use std::marker::PhantomData;
use walk::read_level;
use way::Way;

/// A type of yours, whose values hold values of the same type.
pub trait FromNested: Drop {
    /// The value of the object's own members.
    type Own: Drop;

    /// The value that is made of these, and of the values of the objects in the object.
    ghost builds: { Self.Own → List Self → Self };

    /// The parts of which a value was made.
    ghost parts_of: { Self → Self.Own × List Self };

    /// Makes the value.
    fn from_nested(own: Self::Own, below: Items<Self>) -> Self
        ensures { result ≡ builds own below };

    /// The parts of a value that was made are those that it was made of.
    ghost kept: { (own : Self.Own) → (below : List Self)
        → parts_of (builds own below) ≡ (own, below) };
}

/// An object that holds a list of objects of the same form, of each of which a value of the type `T` is
/// made: the name of the member with the list, and the other members.
///
/// A tree of folders is read by `Nested("folders", Member("name", ..), PhantomData)`, where `T` is
/// `Folder`: a type of yours that implements `FromNested`. The list has to be there, and may be empty.
/// The faults of an object's own members and of its list come before those of the objects in it. What
/// the rules ask is known of the value and of each value in it. `Closed` around it lets no other member
/// in, at any level.
///
/// It is read by calls as deep as the objects nest. A text that nests deeper than 128 is not parsed.
#[derive(Clone, Copy, Debug)]
pub struct Nested<'a, M, T>(pub &'a str, pub M, pub PhantomData<&'a T>);

// Reads an object of the form, closed or not.
fn read_nested<'t, 'a, T: FromNested, M: Members<'a, Out = T::Own>, H: I18n + FormI18n>(
    form: &Nested<'a, M, T>,
    closed: bool,
    tree: &Tree<'t, 'a>,
    trail: &mut Trail<'a>,
    report: &mut Report,
    h: &H,
) -> Result<Option<T>, AllocError>
    ensures answer { Visited (nested_visits form.now.0.now closed (M.visits form.now.1)
        (M.names form.now.1) (H.form_text h.now) tree.now)
        (H.text h.now) trail.old trail.new report.old report.new (forget result) }
    ensures value { IfOk result (λ out.
        out ≡ nested_value form.now.0.now (M.value form.now.1) T.builds tree.now) }
    ensures sound { OnOk result (Sound (nested_visits form.now.0.now closed (M.visits form.now.1)
        (M.names form.now.1) (H.form_text h.now) tree.now)
        (Kept (M.keeps form.now.1) T.parts_of)
        (nested_value form.now.0.now (M.value form.now.1) T.builds tree.now)) }
{
    let way = Way {
        name: form.0,
        members: &form.1,
        closed,
        h,
        tree,
    };
    read_level(&way, way.tree, trail, report)
}

impl<'a, T: FromNested, M: Members<'a, Out = T::Own>> Form<'a> for Nested<'a, M, T> {
    type Out = T;

    ghost visits = { λ form texts j.
        nested_visits form.0.now false (M.visits form.1) (M.names form.1) texts j };

    ghost value = { λ form j. nested_value form.0.now (M.value form.1) T.builds j };

    ghost keeps = { λ form out. Kept (M.keeps form.1) T.parts_of out };

    fn read<'t, H: I18n + FormI18n>(
        &self,
        tree: &Tree<'t, 'a>,
        trail: &mut Trail<'a>,
        report: &mut Report,
        h: &H,
    ) -> Result<Option<T>, AllocError> {
        read_nested(self, false, tree, trail, report, h)
    }
}

/// No member but those of the form, in the object and in each object in it.
impl<'a, T: FromNested, M: Members<'a, Out = T::Own>> Form<'a> for Closed<Nested<'a, M, T>> {
    type Out = T;

    ghost visits = { λ form texts j.
        nested_visits form.0.0.now true (M.visits form.0.1) (M.names form.0.1) texts j };

    ghost value = { λ form j. nested_value form.0.0.now (M.value form.0.1) T.builds j };

    ghost keeps = { λ form out. Kept (M.keeps form.0.1) T.parts_of out };

    fn read<'t, H: I18n + FormI18n>(
        &self,
        tree: &Tree<'t, 'a>,
        trail: &mut Trail<'a>,
        report: &mut Report,
        h: &H,
    ) -> Result<Option<T>, AllocError> {
        read_nested(&self.0, true, tree, trail, report, h)
    }
}
