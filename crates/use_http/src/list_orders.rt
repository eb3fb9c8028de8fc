// Written by tools/port-garde from list_orders.garde.rs: edit that file, not this one. Its sum is f7b2adcd4cf9f8e0.
//! What is asked for of the orders: `GET /orders?customer=Ada&page=2&limit=50`.
ghost use Rattle.std.specs.Prelude.{[], refl, ◌∷◌};
ghost use Rattle.garde.specs.Fields.{◌and◌, between, chars, field, if_some, is, range};
ghost use Rattle.garde_schema.specs.Spelling.{a_text, an_object, closed, made, member, three, with_default};
ghost use Rattle.garde_form.specs.Spelling.{a_written, optional, u32_texts};

use garde::fields::Is;
use garde::{I18n, Stated, Valid, length, range};
use garde_form::Parsed;
use garde_schema::{
    Built, Closed, FirstReadError, FormI18n, FromParts, Member, Object, Optional, ReadBody,
    Scratch, Spelled, Text, TextRef, U32, WithDefault, read_json_first,
};
use std::alloc::Global;
use std::marker::PhantomData;

/// Whose orders, and which page of them.
#[derive(Drop)]
pub struct Page<'t> {
    pub customer: Option<TextRef<'t>>,
    pub page: u32,
    pub limit: u32,
}

impl<'t> Stated for Page<'t> {
    type Context = ();

    ghost visits = { λ v _.
        field "customer" (if_some (λ x. is (chars (between 1 80) x)) v.customer)
        and field "page" (is (range (between 1 10000) v.page))
        and field "limit" (is (range (between 1 100) v.limit)) };
}

/// What is asked for, by the query.
#[derive(Drop)]
pub struct ListOrders<'t> {
    pub query: Page<'t>,
}

impl<'t> Stated for ListOrders<'t> {
    type Context = ();

    ghost visits = { λ v ctx. field "query" (⟦<Page<'t> as Stated>⟧.visits v.query ctx) };
}

/// A value of the type `Page` is made of what its form reads.
impl<'t> FromParts for Page<'t> {
    type Parts = (Option<TextRef<'t>>, u32, u32);

    ghost builds = { λ parts. record { customer = parts.0; page = parts.1; limit = parts.2 } };

    ghost parts_of = { λ v. (v.customer, v.page, v.limit) };

    ghost kept = { λ _. refl };

    fn from_parts(parts: Self::Parts) -> Self {
        let (customer, page, limit) = parts;
        Page {
            customer,
            page,
            limit,
        }
    }
}

/// A value of the type `ListOrders` is made of what its form reads.
impl<'t> FromParts for ListOrders<'t> {
    type Parts = Page<'t>;

    ghost builds = { λ parts. record { query = parts } };

    ghost parts_of = { λ v. v.query };

    ghost kept = { λ _. refl };

    fn from_parts(parts: Self::Parts) -> Self {
        ListOrders { query: parts }
    }
}

impl<'t> Spelled for Page<'t> {
    ghost spelled = { made (λ parts. record { customer = parts.0; page = parts.1; limit = parts.2 })
        (an_object (closed (three
        (optional "customer" (a_text (λ v. is (chars (between 1 80) v))))
        (with_default "page" (a_written u32_texts (range (between 1 10000) ∷ [])) 1)
        (with_default "limit" (a_written u32_texts (range (between 1 100) ∷ [])) 20)))) };
}

impl<'t> Spelled for ListOrders<'t> {
    ghost spelled = { made (λ parts. record { query = parts })
        (an_object (member "query" ⟦<Page<'t> as Spelled>⟧.spelled)) };
}

#[tactic(auto, unfolding(garde::specs::Fields::Known))]
impl<'a> ReadBody<'a> for ListOrders<'a> {
    fn read_body<H: I18n + FormI18n>(
        alloc: Global,
        bytes: &'a [u8],
        scratch: &'a mut Scratch,
        most: usize,
        h: &H,
    ) -> Result<ListOrders<'a>, FirstReadError> {
        let page_form = Built(
            Object(Closed((
                Optional("customer", Text(Is(length!(chars, min = 1, max = 80)))),
                WithDefault("page", Parsed(U32, Is(range!(min = 1, max = 10000))), 1),
                WithDefault("limit", Parsed(U32, Is(range!(min = 1, max = 100))), 20),
            ))),
            PhantomData::<&Page<'_>>,
        );
        let list_orders_form = Built(
            Object(Member("query", page_form)),
            PhantomData::<&ListOrders<'_>>,
        );
        match read_json_first(alloc, bytes, scratch, &list_orders_form, most, h) {
            Ok(value) => Ok(Valid::known(value, &()).into_inner()),
            Err(error) => Err(error),
        }
    }
}
