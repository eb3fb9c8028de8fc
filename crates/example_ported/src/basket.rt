//! A basket as it comes in a request, whose fields ask of one another.
ghost use Rattle.std.specs.Prelude.{is_some, refl, ◌&&◌, ◌||◌};
ghost use Rattle.garde.specs.Words.{has_part};
ghost use Rattle.garde_schema.specs.Maps.{each_key, names_of};
ghost use Rattle.garde.specs.Fields.{◌and◌, alphanumeric, ascii, at_least, at_most, between, Bool, bytes, chars, codes, each, each_value, false, field, if_some, includes, is, items, key_part, matches, multiple_of, nat_eq, not, prefix, range, required, text_eq, text_is, true, unique, when};
ghost use Rattle.example_ported.specs.declared.basket.Payment.TheVariants.{Cash, Card, Bill};

use crate::own::{FitsOnAPage, HasRoom, IsNamed};
use garde::fields::{
    Alphanumeric, Ascii, Equal, Is, Matches, MultipleOf, Prefix, Required, Rules, Unique, When,
    includes,
};
use garde::rules::contains;
use garde::{I18n, Report, Stated, Trail, Valid, length, range};
use garde_schema::{
    Built, Checked, Closed, Entries, FormI18n, FromParts, Items, Keys, List, ListUnder, MapUnder,
    Member, Nullish, Object, OneOf, ReadError, Scratch, Text, TextRef, U8, U16, Under, Whole,
    read_json,
};
use std::alloc::{AllocError, Global};
use std::marker::PhantomData;

/// How it is paid.
#[derive(Clone, Copy, Debug)]
pub enum Payment {
    Cash,
    Card,
    Bill,
}

/// What is in it.
#[derive(Debug, Drop)]
pub struct Entry<'t> {
    pub code: TextRef<'t>,
    pub gifts: u16,
    pub pieces: u16,
}

impl<'t> Stated for Entry<'t> {
    type Context = ();

    ghost visits = { λ v _.
        field "code" (is (prefix "P" v.code))
        and field "gifts" (is (range (at_most v.pieces) v.gifts))
        and field "pieces" (is (range (between 1 120) v.pieces) and is (multiple_of 6 v.pieces)) };
}

/// Who gets it, and how it is paid.
#[derive(Debug, Drop)]
pub struct Basket<'t> {
    pub customer: TextRef<'t>,
    pub payment: Payment,
    pub bill_to: Option<TextRef<'t>>,
    pub entries: Items<Entry<'t>>,
    pub again: TextRef<'t>,
}

impl<'t> Stated for Basket<'t> {
    type Context = ();

    ghost visits = { λ v ctx.
        field "customer" (is (chars (between 1 80) v.customer))
        and field "bill_to" (when (elim v.payment as (λ _. Bool) [ Card ↦ true | Bill ↦ true | _ ↦ false ]) (is (required v.bill_to)) and if_some (λ x. is (bytes (between 5 200) x)) v.bill_to)
        and field "entries" (is (items (between 1 50) v.entries) and when (elim v.payment as (λ _. Bool) [ Cash ↦ true | _ ↦ false ]) (is (items (at_most 3) v.entries)) and each (λ x. ⟦<Entry<'t> as Stated>⟧.visits x ctx) v.entries)
        and field "again" (is (matches "customer" (text_eq v.again v.customer))) };
}

/// What is said of it.
#[derive(Debug, Drop)]
pub struct Marks<'t> {
    pub tags: Items<TextRef<'t>>,
    pub seats: Items<u8>,
    pub phone: Option<TextRef<'t>>,
    pub labels: Entries<'t, TextRef<'t>>,
    pub note: TextRef<'t>,
    pub copies: u8,
    pub agent: Option<TextRef<'t>>,
}

impl<'t> Stated for Marks<'t> {
    type Context = ();

    ghost visits = { λ v _.
        field "tags" (is (items (at_most 5) v.tags) and unique "stands before" text_eq v.tags and is (⟦<HasRoom as garde::fields::Rule<Items<TextRef<'t>>>>⟧.finds (record {}) v.tags) and each (λ x. is (ascii x) and is (bytes (at_most 10) x)) v.tags)
        and field "seats" (unique "comes twice" nat_eq v.seats and each (λ x. is (range (at_most 99) x)) v.seats)
        and field "phone" (when ((includes text_eq v.tags (codes "rush")) && (not (includes nat_eq v.seats 7))) (is (required v.phone)) and if_some (λ x. is (prefix "+" x)) v.phone)
        and field "labels" (is (items (at_most 9) v.labels) and each_key (λ x. is (ascii x) and is (bytes (at_most 8) x)) (names_of v.labels) and is (⟦<FitsOnAPage as garde::fields::Rule<Entries<'t, TextRef<'t>>>>⟧.finds (record {}) v.labels) and each_value key_part (λ x. is (alphanumeric x)) v.labels)
        and field "note" (when ((is_some v.phone) || (has_part (codes "@") v.note)) (is (bytes (at_least 3) v.note)))
        and field "copies" (when (not (text_is "none" v.note)) (is (range (at_least 1) v.copies)))
        and field "agent" (is (⟦<IsNamed as garde::fields::Rule<Option<TextRef<'t>>>>⟧.finds (record {}) v.agent)) };
}

/// A value of the type `Entry` is made of what its form reads.
impl<'t> FromParts for Entry<'t> {
    type Parts = (TextRef<'t>, (u16, u16));

    ghost builds = { λ parts. record { code = parts.0; gifts = parts.1.0; pieces = parts.1.1 } };

    ghost parts_of = { λ v. (v.code, (v.gifts, v.pieces)) };

    ghost kept = { λ _. refl };

    fn from_parts(parts: Self::Parts) -> Self {
        let (code, (gifts, pieces)) = parts;
        Entry {
            code,
            gifts,
            pieces,
        }
    }
}

/// What the field `gifts` of `Entry` asks beside others.
#[derive(Clone, Copy)]
struct EntryGiftsRules;

impl Rules<(u16, u16)> for EntryGiftsRules {
    ghost asks = { λ _ v. is (range (at_most v.1) v.0) };

    fn ask<'a, H: I18n>(
        &self,
        value: &(u16, u16),
        trail: &mut Trail<'a>,
        report: &mut Report,
        h: &H,
    ) -> Result<(), AllocError> {
        let (gifts, pieces) = value;
        Is(range!(max = *pieces)).ask(gifts, trail, report, h)
    }
}

/// A value of the type `Basket` is made of what its form reads.
impl<'t> FromParts for Basket<'t> {
    type Parts = (
        TextRef<'t>,
        ((Payment, Option<TextRef<'t>>), Items<Entry<'t>>),
        TextRef<'t>,
    );

    ghost builds = { λ parts. record {
      customer = parts.0;
      payment = parts.1.0.0;
      bill_to = parts.1.0.1;
      entries = parts.1.1;
      again = parts.2;
    } };

    ghost parts_of = { λ v. (v.customer, ((v.payment, v.bill_to), v.entries), v.again) };

    ghost kept = { λ _. refl };

    fn from_parts(parts: Self::Parts) -> Self {
        let (customer, ((payment, bill_to), entries), again) = parts;
        Basket {
            customer,
            payment,
            bill_to,
            entries,
            again,
        }
    }
}

/// What rules of `Basket` are asked of together.
type BasketAgainParts<'t> = (
    TextRef<'t>,
    ((Payment, Option<TextRef<'t>>), Items<Entry<'t>>),
    TextRef<'t>,
);

/// What the field `again` of `Basket` asks beside others.
#[derive(Clone, Copy)]
struct BasketAgainRules;

impl<'t> Rules<BasketAgainParts<'t>> for BasketAgainRules {
    ghost asks = { λ _ v. is (matches "customer" (text_eq v.2 v.0)) };

    fn ask<'a, H: I18n>(
        &self,
        value: &BasketAgainParts<'t>,
        trail: &mut Trail<'a>,
        report: &mut Report,
        h: &H,
    ) -> Result<(), AllocError> {
        let (customer, ((_, _), _), again) = value;
        Is(Matches {
            field: "customer",
            other: customer,
        })
        .ask(again, trail, report, h)
    }
}

/// What the field `entries` of `Basket` asks beside others.
#[derive(Clone, Copy)]
struct BasketEntriesRules;

impl<'t> Rules<((Payment, Option<TextRef<'t>>), Items<Entry<'t>>)> for BasketEntriesRules {
    ghost asks = { λ _ v.
        when (elim v.0.0 as (λ _. Bool) [ Cash ↦ true | _ ↦ false ]) (is (items (at_most 3) v.1)) };

    fn ask<'a, H: I18n>(
        &self,
        value: &((Payment, Option<TextRef<'t>>), Items<Entry<'t>>),
        trail: &mut Trail<'a>,
        report: &mut Report,
        h: &H,
    ) -> Result<(), AllocError> {
        let ((payment, _), entries) = value;
        When(matches!(payment, Payment::Cash), Is(length!(max = 3))).ask(entries, trail, report, h)
    }
}

/// What the field `bill_to` of `Basket` asks beside others.
#[derive(Clone, Copy)]
struct BasketBillToRules;

impl<'t> Rules<(Payment, Option<TextRef<'t>>)> for BasketBillToRules {
    ghost asks = { λ _ v.
        when (elim v.0 as (λ _. Bool) [ Card ↦ true | Bill ↦ true | _ ↦ false ]) (is (required v.1)) };

    fn ask<'a, H: I18n>(
        &self,
        value: &(Payment, Option<TextRef<'t>>),
        trail: &mut Trail<'a>,
        report: &mut Report,
        h: &H,
    ) -> Result<(), AllocError> {
        let (payment, bill_to) = value;
        When(
            matches!(payment, Payment::Card | Payment::Bill),
            Is(Required),
        )
        .ask(bill_to, trail, report, h)
    }
}

/// A value of the type `Marks` is made of what its form reads.
impl<'t> FromParts for Marks<'t> {
    type Parts = (
        (
            Items<TextRef<'t>>,
            Items<u8>,
            Option<TextRef<'t>>,
            Entries<'t, TextRef<'t>>,
            TextRef<'t>,
            u8,
        ),
        Option<TextRef<'t>>,
    );

    ghost builds = { λ parts. record {
      tags = parts.0.0;
      seats = parts.0.1;
      phone = parts.0.2;
      labels = parts.0.3;
      note = parts.0.4;
      copies = parts.0.5;
      agent = parts.1;
    } };

    ghost parts_of = { λ v. ((v.tags, v.seats, v.phone, v.labels, v.note, v.copies), v.agent) };

    ghost kept = { λ _. refl };

    fn from_parts(parts: Self::Parts) -> Self {
        let ((tags, seats, phone, labels, note, copies), agent) = parts;
        Marks {
            tags,
            seats,
            phone,
            labels,
            note,
            copies,
            agent,
        }
    }
}

/// What rules of `Marks` are asked of together.
type MarksPhoneParts<'t> = (
    Items<TextRef<'t>>,
    Items<u8>,
    Option<TextRef<'t>>,
    Entries<'t, TextRef<'t>>,
    TextRef<'t>,
    u8,
);

/// What the field `phone` of `Marks` asks beside others.
#[derive(Clone, Copy)]
struct MarksPhoneRules;

impl<'t> Rules<MarksPhoneParts<'t>> for MarksPhoneRules {
    ghost asks = { λ _ v.
        when ((includes text_eq v.0 (codes "rush")) && (not (includes nat_eq v.1 7))) (is (required v.2)) };

    fn ask<'a, H: I18n>(
        &self,
        value: &MarksPhoneParts<'t>,
        trail: &mut Trail<'a>,
        report: &mut Report,
        h: &H,
    ) -> Result<(), AllocError> {
        let (tags, seats, phone, _, _, _) = value;
        When(
            includes(tags.as_slice(), &Equal, &TextRef::new("rush"))
                && !includes(seats.as_slice(), &Equal, &7),
            Is(Required),
        )
        .ask(phone, trail, report, h)
    }
}

/// What the field `note` of `Marks` asks beside others.
#[derive(Clone, Copy)]
struct MarksNoteRules;

impl<'t> Rules<MarksPhoneParts<'t>> for MarksNoteRules {
    ghost asks = { λ _ v.
        when ((is_some v.2) || (has_part (codes "@") v.4)) (is (bytes (at_least 3) v.4)) };

    fn ask<'a, H: I18n>(
        &self,
        value: &MarksPhoneParts<'t>,
        trail: &mut Trail<'a>,
        report: &mut Report,
        h: &H,
    ) -> Result<(), AllocError> {
        let (_, _, phone, _, note, _) = value;
        When(
            phone.is_some() || contains::Contains::validate_contains(note, "@"),
            Is(length!(min = 3)),
        )
        .ask(note, trail, report, h)
    }
}

/// What the field `copies` of `Marks` asks beside others.
#[derive(Clone, Copy)]
struct MarksCopiesRules;

impl<'t> Rules<MarksPhoneParts<'t>> for MarksCopiesRules {
    ghost asks = { λ _ v. when (not (text_is "none" v.4)) (is (range (at_least 1) v.5)) };

    fn ask<'a, H: I18n>(
        &self,
        value: &MarksPhoneParts<'t>,
        trail: &mut Trail<'a>,
        report: &mut Report,
        h: &H,
    ) -> Result<(), AllocError> {
        let (_, _, _, _, note, copies) = value;
        When(note.text() != "none", Is(range!(min = 1))).ask(copies, trail, report, h)
    }
}

/// Reads a value of the type `Basket` in JSON, or reports every fault of its form and of its rules.
#[tactic(auto, unfolding(garde::specs::Fields::Known))]
pub fn read_basket<'a, H: I18n + FormI18n>(
    alloc: Global,
    bytes: &'a [u8],
    scratch: &'a mut Scratch,
    h: &H,
) -> Result<Valid<Basket<'a>>, ReadError> {
    let payment_form = OneOf(&[
        ("cash", Payment::Cash),
        ("card", Payment::Card),
        ("bill", Payment::Bill),
    ]);
    let entry_form = Built(
        Object(Closed((
            Member("code", Text(Is(Prefix("P")))),
            Checked(
                (
                    Member("gifts", Whole(U16, ())),
                    Member(
                        "pieces",
                        Whole(U16, (Is(range!(min = 1, max = 120)), Is(MultipleOf(6)))),
                    ),
                ),
                Under("gifts", EntryGiftsRules),
            ),
        ))),
        PhantomData::<&Entry<'_>>,
    );
    let basket_form = Built(
        Object(Checked(
            (
                Member("customer", Text(Is(length!(chars, min = 1, max = 80)))),
                Checked(
                    (
                        Checked(
                            (
                                Member("payment", payment_form),
                                Nullish("billTo", Text(Is(length!(min = 5, max = 200)))),
                            ),
                            Under("billTo", BasketBillToRules),
                        ),
                        Member(
                            "entries",
                            ListUnder(Is(length!(min = 1, max = 50)), entry_form),
                        ),
                    ),
                    Under("entries", BasketEntriesRules),
                ),
                Member("again", Text(())),
            ),
            Under("again", BasketAgainRules),
        )),
        PhantomData::<&Basket<'_>>,
    );
    match read_json(alloc, bytes, scratch, &basket_form, h) {
        Ok(value) => Ok(Valid::known(value, &())),
        Err(error) => Err(error),
    }
}

/// Reads a value of the type `Marks` in JSON, or reports every fault of its form and of its rules.
#[tactic(auto, unfolding(garde::specs::Fields::Known))]
pub fn read_marks<'a, H: I18n + FormI18n>(
    alloc: Global,
    bytes: &'a [u8],
    scratch: &'a mut Scratch,
    h: &H,
) -> Result<Valid<Marks<'a>>, ReadError> {
    let marks_form = Built(
        Object((
            Checked(
                (
                    Member(
                        "tags",
                        Checked(
                            ListUnder(
                                Is(length!(max = 5)),
                                Text((Is(Ascii), Is(length!(max = 10)))),
                            ),
                            (Unique("stands before", Equal), Is(HasRoom)),
                        ),
                    ),
                    Member(
                        "seats",
                        Checked(
                            List(Whole(U8, Is(range!(max = 99)))),
                            Unique("comes twice", Equal),
                        ),
                    ),
                    Nullish("phone", Text(Is(Prefix("+")))),
                    Member(
                        "labels",
                        Checked(
                            Keys(
                                MapUnder(Is(length!(max = 9)), Text(Is(Alphanumeric))),
                                (Is(Ascii), Is(length!(max = 8))),
                            ),
                            Is(FitsOnAPage),
                        ),
                    ),
                    Member("note", Text(())),
                    Member("copies", Whole(U8, ())),
                ),
                (
                    Under("phone", MarksPhoneRules),
                    Under("note", MarksNoteRules),
                    Under("copies", MarksCopiesRules),
                ),
            ),
            Checked(Nullish("agent", Text(())), Under("agent", Is(IsNamed))),
        )),
        PhantomData::<&Marks<'_>>,
    );
    match read_json(alloc, bytes, scratch, &marks_form, h) {
        Ok(value) => Ok(Valid::known(value, &())),
        Err(error) => Err(error),
    }
}
