// Written by tools/port-garde from order.garde.rs: edit that file, not this one. Its sum is 9a105f4da8361cef.
//! A page of orders with their lines.
ghost use Rattle.std.specs.Prelude.{[], refl, ◌∷◌};
ghost use Rattle.garde.specs.Fields.{◌and◌, at_least, at_most, between, Bool, chars, count, each, false, field, if_some, is, items, prefix, range, required, true, when};
ghost use Rattle.garde_schema.specs.Spelling.{a_list_of, a_name, a_number, a_text, an_object, closed, made, member, nullish, ruled, three, two, u32_numbers};
ghost use Rattle.use_order.specs.declared.order.Delivery.TheVariants.{Counter, Post};

use garde::fields::{Is, Prefix, Required, Rules, When};
use garde::{I18n, Report, Stated, Trail, Valid, length, range};
use garde_schema::{
    Built, Checked, Closed, FirstReadError, FormI18n, FromParts, Items, ListUnder, Member, Nullish,
    Object, OneOf, ReadBody, Scratch, Spelled, Text, TextRef, U32, Under, Whole, read_json_first,
};
use std::alloc::{AllocError, Global};
use std::marker::PhantomData;

/// How an order comes to its customer.
#[derive(Clone, Copy)]
pub enum Delivery {
    Counter,
    Post,
}

/// So many pieces of an article, each at so many cents.
#[derive(Drop)]
pub struct Line<'t> {
    pub code: TextRef<'t>,
    pub count: u32,
    pub cents: u32,
}

impl<'t> Stated for Line<'t> {
    type Context = ();

    ghost visits = { λ v _.
        field "code" (is (prefix "P" v.code))
        and field "count" (is (range (between 1 99) v.count))
        and field "cents" (is (range (between 1 9999) v.cents)) };
}

/// What a customer orders. What goes by post has an address, and at the counter 3 lines are the
/// most.
#[derive(Drop)]
pub struct Order<'t> {
    pub customer: TextRef<'t>,
    pub delivery: Delivery,
    pub address: Option<TextRef<'t>>,
    pub lines: Items<Line<'t>>,
}

impl<'t> Stated for Order<'t> {
    type Context = ();

    ghost visits = { λ v ctx.
        field "customer" (is (chars (between 1 80) v.customer))
        and field "address" (when (elim v.delivery as (λ _. Bool) [ Post ↦ true | _ ↦ false ]) (is (required v.address)) and if_some (λ x. is (chars (between 5 200) x)) v.address)
        and field "lines" (is (items (between 1 50) v.lines) and when (elim v.delivery as (λ _. Bool) [ Counter ↦ true | _ ↦ false ]) (is (items (at_most 3) v.lines)) and each (λ x. ⟦<Line<'t> as Stated>⟧.visits x ctx) v.lines) };
}

/// One page of several, with 20 orders at most.
#[derive(Drop)]
pub struct Page<'t> {
    pub number: u32,
    pub entries: Items<Order<'t>>,
}

impl<'t> Stated for Page<'t> {
    type Context = ();

    ghost visits = { λ v ctx.
        field "number" (is (range (at_least 1) v.number))
        and field "entries" (is (items (at_most 20) v.entries) and each (λ x. ⟦<Order<'t> as Stated>⟧.visits x ctx) v.entries) };
}

/// A value of the type `Line` is made of what its form reads.
impl<'t> FromParts for Line<'t> {
    type Parts = (TextRef<'t>, u32, u32);

    ghost builds = { λ parts. record { code = parts.0; count = parts.1; cents = parts.2 } };

    ghost parts_of = { λ v. (v.code, v.count, v.cents) };

    ghost kept = { λ _. refl };

    fn from_parts(parts: Self::Parts) -> Self {
        let (code, count, cents) = parts;
        Line { code, count, cents }
    }
}

/// A value of the type `Order` is made of what its form reads.
impl<'t> FromParts for Order<'t> {
    type Parts = (
        TextRef<'t>,
        ((Delivery, Option<TextRef<'t>>), Items<Line<'t>>),
    );

    ghost builds = { λ parts. record {
      customer = parts.0;
      delivery = parts.1.0.0;
      address = parts.1.0.1;
      lines = parts.1.1;
    } };

    ghost parts_of = { λ v. (v.customer, ((v.delivery, v.address), v.lines)) };

    ghost kept = { λ _. refl };

    fn from_parts(parts: Self::Parts) -> Self {
        let (customer, ((delivery, address), lines)) = parts;
        Order {
            customer,
            delivery,
            address,
            lines,
        }
    }
}

/// What the field `lines` of `Order` asks beside others.
#[derive(Clone, Copy)]
struct OrderLinesRules;

impl<'t> Rules<((Delivery, Option<TextRef<'t>>), Items<Line<'t>>)> for OrderLinesRules {
    ghost asks = { λ _ v.
        when (elim v.0.0 as (λ _. Bool) [ Counter ↦ true | _ ↦ false ]) (is (items (at_most 3) v.1)) };

    fn ask<'a, H: I18n>(
        &self,
        value: &((Delivery, Option<TextRef<'t>>), Items<Line<'t>>),
        trail: &mut Trail<'a>,
        report: &mut Report,
        h: &H,
    ) -> Result<(), AllocError> {
        let ((delivery, _), lines) = value;
        When(matches!(delivery, Delivery::Counter), Is(length!(max = 3))).ask(
            lines, trail, report, h,
        )
    }
}

/// What the field `address` of `Order` asks beside others.
#[derive(Clone, Copy)]
struct OrderAddressRules;

impl<'t> Rules<(Delivery, Option<TextRef<'t>>)> for OrderAddressRules {
    ghost asks = { λ _ v.
        when (elim v.0 as (λ _. Bool) [ Post ↦ true | _ ↦ false ]) (is (required v.1)) };

    fn ask<'a, H: I18n>(
        &self,
        value: &(Delivery, Option<TextRef<'t>>),
        trail: &mut Trail<'a>,
        report: &mut Report,
        h: &H,
    ) -> Result<(), AllocError> {
        let (delivery, address) = value;
        When(matches!(delivery, Delivery::Post), Is(Required)).ask(address, trail, report, h)
    }
}

/// A value of the type `Page` is made of what its form reads.
impl<'t> FromParts for Page<'t> {
    type Parts = (u32, Items<Order<'t>>);

    ghost builds = { λ parts. record { number = parts.0; entries = parts.1 } };

    ghost parts_of = { λ v. (v.number, v.entries) };

    ghost kept = { λ _. refl };

    fn from_parts(parts: Self::Parts) -> Self {
        let (number, entries) = parts;
        Page { number, entries }
    }
}

impl Spelled for Delivery {
    ghost spelled = { a_name (("counter", Counter) ∷ ("post", Post) ∷ []) };
}

impl<'t> Spelled for Line<'t> {
    ghost spelled = { made (λ parts. record { code = parts.0; count = parts.1; cents = parts.2 })
        (an_object (closed (three
        (member "code" (a_text (λ v. is (prefix "P" v))))
        (member "count" (a_number u32_numbers (range (between 1 99) ∷ [])))
        (member "cents" (a_number u32_numbers (range (between 1 9999) ∷ [])))))) };
}

impl<'t> Spelled for Order<'t> {
    ghost spelled = { made (λ parts. record {
      customer = parts.0;
      delivery = parts.1.0.0;
      address = parts.1.0.1;
      lines = parts.1.1;
    }) (an_object (closed (two
        (member "customer" (a_text (λ v. is (chars (between 1 80) v))))
        (ruled
        (two
        (ruled
        (two
        (member "delivery" ⟦<Delivery as Spelled>⟧.spelled)
        (nullish "address" (a_text (λ v. is (chars (between 5 200) v)))))
        (λ v. field "address" (when (elim v.0 as (λ _. Bool) [ Post ↦ true | _ ↦ false ]) (is (required v.1)))))
        (member "lines" (a_list_of (λ v. is (count (between 1 50) v)) ⟦<Line<'t> as Spelled>⟧.spelled)))
        (λ v. field "lines" (when (elim v.0.0 as (λ _. Bool) [ Counter ↦ true | _ ↦ false ]) (is (items (at_most 3) v.1)))))))) };
}

impl<'t> Spelled for Page<'t> {
    ghost spelled = { made (λ parts. record { number = parts.0; entries = parts.1 })
        (an_object (closed (two
        (member "number" (a_number u32_numbers (range (at_least 1) ∷ [])))
        (member "entries" (a_list_of (λ v. is (count (at_most 20) v)) ⟦<Order<'t> as Spelled>⟧.spelled))))) };
}

#[tactic(auto, unfolding(garde::specs::Fields::Known))]
impl<'a> ReadBody<'a> for Page<'a> {
    fn read_body<H: I18n + FormI18n>(
        alloc: Global,
        bytes: &'a [u8],
        scratch: &'a mut Scratch,
        most: usize,
        h: &H,
    ) -> Result<Page<'a>, FirstReadError> {
        let delivery_form = OneOf(&[("counter", Delivery::Counter), ("post", Delivery::Post)]);
        let line_form = Built(
            Object(Closed((
                Member("code", Text(Is(Prefix("P")))),
                Member("count", Whole(U32, Is(range!(min = 1, max = 99)))),
                Member("cents", Whole(U32, Is(range!(min = 1, max = 9999)))),
            ))),
            PhantomData::<&Line<'_>>,
        );
        let order_form = Built(
            Object(Closed((
                Member("customer", Text(Is(length!(chars, min = 1, max = 80)))),
                Checked(
                    (
                        Checked(
                            (
                                Member("delivery", delivery_form),
                                Nullish("address", Text(Is(length!(chars, min = 5, max = 200)))),
                            ),
                            Under("address", OrderAddressRules),
                        ),
                        Member(
                            "lines",
                            ListUnder(Is(length!(min = 1, max = 50)), line_form),
                        ),
                    ),
                    Under("lines", OrderLinesRules),
                ),
            ))),
            PhantomData::<&Order<'_>>,
        );
        let page_form = Built(
            Object(Closed((
                Member("number", Whole(U32, Is(range!(min = 1)))),
                Member("entries", ListUnder(Is(length!(max = 20)), order_form)),
            ))),
            PhantomData::<&Page<'_>>,
        );
        match read_json_first(alloc, bytes, scratch, &page_form, most, h) {
            Ok(value) => Ok(Valid::known(value, &()).into_inner()),
            Err(error) => Err(error),
        }
    }
}
