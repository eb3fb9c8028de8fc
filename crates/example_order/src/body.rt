//! The body that the library checks: an order, with its form and its rules.
ghost use Rattle.std.specs.Prelude.{[], refl, ◌∷◌};
ghost use Rattle.garde.specs.Fields.{◌and◌, between, chars, count, each, field, is, items, prefix, range};
ghost use Rattle.garde_schema.specs.Spelling.{a_list_of, a_number, a_text, an_object, closed, made, member, two, u32_numbers};

use garde::fields::{Is, Prefix};
use garde::{FirstError, I18n, Stated, Valid, length, range};
use garde_library::ReadTree;
use garde_schema::{
    Built, Closed, FormI18n, FromParts, Items, ListUnder, Member, Object, Spelled, Text, TextRef,
    Tree, U32, Whole, read_first,
};
use std::alloc::Global;
use std::marker::PhantomData;

/// So many pieces of an article.
#[derive(Drop)]
pub struct Line<'t> {
    pub code: TextRef<'t>,
    pub count: u32,
}

impl<'t> Stated for Line<'t> {
    type Context = ();

    ghost visits = { λ v _.
        field "code" (is (prefix "P" v.code))
        and field "count" (is (range (between 1 99) v.count)) };
}

/// Who orders, and the lines.
#[derive(Drop)]
pub struct Order<'t> {
    pub customer: TextRef<'t>,
    pub lines: Items<Line<'t>>,
}

impl<'t> Stated for Order<'t> {
    type Context = ();

    ghost visits = { λ v ctx.
        field "customer" (is (chars (between 1 80) v.customer))
        and field "lines" (is (items (between 1 50) v.lines) and each (λ x. ⟦<Line<'t> as Stated>⟧.visits x ctx) v.lines) };
}

/// A value of the type `Line` is made of what its form reads.
impl<'t> FromParts for Line<'t> {
    type Parts = (TextRef<'t>, u32);

    ghost builds = { λ parts. record { code = parts.0; count = parts.1 } };

    ghost parts_of = { λ v. (v.code, v.count) };

    ghost kept = { λ _. refl };

    fn from_parts(parts: Self::Parts) -> Self {
        let (code, count) = parts;
        Line { code, count }
    }
}

/// A value of the type `Order` is made of what its form reads.
impl<'t> FromParts for Order<'t> {
    type Parts = (TextRef<'t>, Items<Line<'t>>);

    ghost builds = { λ parts. record { customer = parts.0; lines = parts.1 } };

    ghost parts_of = { λ v. (v.customer, v.lines) };

    ghost kept = { λ _. refl };

    fn from_parts(parts: Self::Parts) -> Self {
        let (customer, lines) = parts;
        Order { customer, lines }
    }
}

impl<'t> Spelled for Line<'t> {
    ghost spelled = { made (λ parts. record { code = parts.0; count = parts.1 })
        (an_object (closed (two
        (member "code" (a_text (λ v. is (prefix "P" v))))
        (member "count" (a_number u32_numbers (range (between 1 99) ∷ [])))))) };
}

impl<'t> Spelled for Order<'t> {
    ghost spelled = { made (λ parts. record { customer = parts.0; lines = parts.1 })
        (an_object (closed (two
        (member "customer" (a_text (λ v. is (chars (between 1 80) v))))
        (member "lines" (a_list_of (λ v. is (count (between 1 50) v)) ⟦<Line<'t> as Spelled>⟧.spelled))))) };
}

/// The title of the problem details.
pub const TITLE: &str = "the order has faults";

/// What the library checks.
pub type Body<'a> = Order<'a>;

#[tactic(auto, unfolding(garde::specs::Fields::Known))]
impl<'a> ReadTree<'a> for Order<'a> {
    fn read_tree<'t, H: I18n + FormI18n>(
        alloc: Global,
        tree: &Tree<'t, 'a>,
        most: usize,
        h: &H,
    ) -> Result<Order<'a>, FirstError> {
        let line_form = Built(
            Object(Closed((
                Member("code", Text(Is(Prefix("P")))),
                Member("count", Whole(U32, Is(range!(min = 1, max = 99)))),
            ))),
            PhantomData::<&Line<'_>>,
        );
        let order_form = Built(
            Object(Closed((
                Member("customer", Text(Is(length!(chars, min = 1, max = 80)))),
                Member(
                    "lines",
                    ListUnder(Is(length!(min = 1, max = 50)), line_form),
                ),
            ))),
            PhantomData::<&Order<'_>>,
        );
        match read_first(alloc, &order_form, tree, most, h) {
            Ok(value) => Ok(Valid::known(value, &()).into_inner()),
            Err(error) => Err(error),
        }
    }
}
