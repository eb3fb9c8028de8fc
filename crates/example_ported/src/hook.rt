//! A subscription to events by a webhook: a list of an enum, and a condition on it.
ghost use Rattle.std.specs.Prelude.{[], is_some, refl, ◌||◌, ◌∷◌};
ghost use Rattle.garde.specs.Fields.{◌and◌, asks, between, chars, count, false, field, includes, is, is_in_memory, items, none, not, prefix, range, unique, url};
ghost use Rattle.garde_schema.specs.Spelling.{a_flag, a_list_of, a_name, a_number, a_ruled, a_text, an_object, closed, five, made, member, nullish, ruled, two, u8_numbers, with_default};
ghost use Rattle.example_ported.specs.declared.hook.Event.TheVariants.{Signup, Payment, Refund, Cancelled};

use garde::fields::{Asks, Equal, Is, IsInMemory, Prefix, Rule, Rules, Unique, Url, includes};
use garde::{I18n, Report, RuleError, Stated, Trail, Valid, length, range};
use garde_schema::{
    Built, Checked, Closed, FirstReadError, Flag, FormI18n, FromParts, Items, ListUnder, Member,
    Nullish, Object, OneOf, ReadBody, Scratch, Spelled, Text, TextRef, U8, Under, Whole,
    WithDefault, read_json_first,
};
use std::alloc::{AllocError, Global};
use std::marker::PhantomData;

/// What may happen.
#[derive(Debug, Clone, Copy, PartialEq, Eq)]
pub enum Event {
    Signup,
    Payment,
    Refund,
    Cancelled,
}

/// The subscription.
#[derive(Debug, Drop)]
pub struct Subscription<'t> {
    pub name: TextRef<'t>,
    pub callback: TextRef<'t>,
    pub events: Items<Event>,
    pub secret: Option<TextRef<'t>>,
    pub retries: u8,
    pub active: bool,
}

impl<'t> Stated for Subscription<'t> {
    type Context = ();

    ghost visits = { λ v _.
        field "name" (is (chars (between 1 60) v.name))
        and field "callback" (is_in_memory (url v.callback) and is (prefix "https://" v.callback))
        and field "events" (is (items (between 1 4) v.events) and unique "stands before" ⟦<Event as PartialEq>⟧.eq v.events)
        and field "secret" (is (asks "a secret is needed for payments" ((not (includes ⟦<Event as PartialEq>⟧.eq v.events Payment)) || (is_some v.secret))))
        and field "retries" (is (range (between 1 10) v.retries)) };
}

/// A value of the type `Subscription` is made of what its form reads.
impl<'t> FromParts for Subscription<'t> {
    type Parts = (
        TextRef<'t>,
        TextRef<'t>,
        (Items<Event>, Option<TextRef<'t>>),
        u8,
        bool,
    );

    ghost builds = { λ parts. record {
      name = parts.0;
      callback = parts.1;
      events = parts.2.0;
      secret = parts.2.1;
      retries = parts.3;
      active = parts.4;
    } };

    ghost parts_of = { λ v. (v.name, v.callback, (v.events, v.secret), v.retries, v.active) };

    ghost kept = { λ _. refl };

    fn from_parts(parts: Self::Parts) -> Self {
        let (name, callback, (events, secret), retries, active) = parts;
        Subscription {
            name,
            callback,
            events,
            secret,
            retries,
            active,
        }
    }
}

/// What the field `secret` of `Subscription` asks beside others.
#[derive(Clone, Copy)]
struct SubscriptionSecretRules;

impl<'t> Rules<(Items<Event>, Option<TextRef<'t>>)> for SubscriptionSecretRules {
    ghost asks = { λ _ v.
        is (asks "a secret is needed for payments" ((not (includes ⟦<Event as PartialEq>⟧.eq v.0 Payment)) || (is_some v.1))) };

    fn ask<'a, H: I18n>(
        &self,
        value: &(Items<Event>, Option<TextRef<'t>>),
        trail: &mut Trail<'a>,
        report: &mut Report,
        h: &H,
    ) -> Result<(), AllocError> {
        let (events, secret) = value;
        Is(SubscriptionSecretRule(events)).ask(secret, trail, report, h)
    }
}

impl Spelled for Event {
    ghost spelled = { a_name (("signup", Signup) ∷ ("payment", Payment) ∷ ("refund", Refund) ∷ ("cancelled", Cancelled) ∷ []) };
}

impl<'t> Spelled for Subscription<'t> {
    ghost spelled = { made (λ parts. record {
      name = parts.0;
      callback = parts.1;
      events = parts.2.0;
      secret = parts.2.1;
      retries = parts.3;
      active = parts.4;
    }) (an_object (closed (five
        (member "name" (a_text (λ v. is (chars (between 1 60) v))))
        (member "callback" (a_text (λ v. is_in_memory (url v) and is (prefix "https://" v))))
        (ruled
        (two
        (member "events" (a_ruled
        (a_list_of (λ v. is (count (between 1 4) v)) ⟦<Event as Spelled>⟧.spelled)
        (λ v. unique "stands before" ⟦<Event as PartialEq>⟧.eq v)))
        (nullish "secret" (a_text (λ _. none))))
        (λ v. field "secret" (is (asks "a secret is needed for payments" ((not (includes ⟦<Event as PartialEq>⟧.eq v.0 Payment)) || (is_some v.1))))))
        (with_default "retries" (a_number u8_numbers (range (between 1 10) ∷ [])) 3)
        (with_default "active" a_flag false)))) };
}

#[tactic(auto, unfolding(garde::specs::Fields::Known))]
impl<'a> ReadBody<'a> for Subscription<'a> {
    fn read_body<H: I18n + FormI18n>(
        alloc: Global,
        bytes: &'a [u8],
        scratch: &'a mut Scratch,
        most: usize,
        h: &H,
    ) -> Result<Subscription<'a>, FirstReadError> {
        let event_form = OneOf(&[
            ("signup", Event::Signup),
            ("payment", Event::Payment),
            ("refund", Event::Refund),
            ("cancelled", Event::Cancelled),
        ]);
        let subscription_form = Built(
            Object(Closed((
                Member("name", Text(Is(length!(chars, min = 1, max = 60)))),
                Member("callback", Text((IsInMemory(Url), Is(Prefix("https://"))))),
                Checked(
                    (
                        Member(
                            "events",
                            Checked(
                                ListUnder(Is(length!(min = 1, max = 4)), event_form),
                                Unique("stands before", Equal),
                            ),
                        ),
                        Nullish("secret", Text(())),
                    ),
                    Under("secret", SubscriptionSecretRules),
                ),
                WithDefault("retries", Whole(U8, Is(range!(min = 1, max = 10))), 3),
                WithDefault("active", Flag, false),
            ))),
            PhantomData::<&Subscription<'_>>,
        );
        match read_json_first(alloc, bytes, scratch, &subscription_form, most, h) {
            Ok(value) => Ok(Valid::known(value, &()).into_inner()),
            Err(error) => Err(error),
        }
    }
}

/// What a rule of the field `secret` of `Subscription` asks of its value.
#[derive(Clone, Copy)]
struct SubscriptionSecretRule<'c>(&'c Items<Event>);

impl<'t> Rule<Option<TextRef<'t>>> for SubscriptionSecretRule<'_> {
    ghost finds = { λ rule value.
        asks "a secret is needed for payments" ((not (includes ⟦<Event as PartialEq>⟧.eq rule.0.now Payment)) || (is_some value)) };

    fn find<H: I18n>(
        &self,
        alloc: Global,
        value: &Option<TextRef<'t>>,
        h: &H,
    ) -> Result<(), RuleError> {
        let events = self.0;
        Asks(
            "a secret is needed for payments",
            !includes(events.as_slice(), &Equal, &Event::Payment) || value.is_some(),
        )
        .find(alloc, value, h)
    }
}
