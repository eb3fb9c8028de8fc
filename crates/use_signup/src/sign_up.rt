// Written by tools/port-garde from sign_up.garde.rs: edit that file, not this one. Its sum is dbf4aa5b2fadc042.
//! Who signs up: the fields of the form and their rules.
ghost use Rattle.std.specs.Prelude.{Err, IfOk, Some, [], codes, map, refl, ◌∷◌, ◌≡◌, ◌≢◌};
ghost use Rattle.garde.specs.Answers.{Answers};
ghost use Rattle.garde_form.specs.WebForm.{field_texts};
ghost use Rattle.garde_schema.specs.Forms.{forget};
ghost use Rattle.garde.specs.Fields.{◌and◌, alphanumeric, at_most, between, bytes, chars, count, field, if_some, is, items, matches, none, prefix, range, reference_to, required, text_eq};
ghost use Rattle.garde_schema.specs.Spelling.{a_list_of, a_name, a_ruled, a_text, an_object, closed, made, member, ruled, six, two};
ghost use Rattle.garde_form.specs.Spelling.{OfForm, a_written, optional, or_empty, u8_texts};
ghost use Rattle.use_signup.specs.declared.sign_up.Topic.TheVariants.{News, Events};
ghost use Rattle.use_signup.specs.declared.sign_up.Tick.TheVariants.{On};

use crate::terms::{Accepted, Words};
use garde::fields::{Alphanumeric, Is, Matches, Prefix, Required, Rules};
use garde::{I18n, Report, Stated, Trail, Valid, ValidateError, length, range};
use garde_form::{FormField, OrEmpty, Parsed, read_form};
use garde_schema::{
    Built, Checked, Closed, FormI18n, FromParts, Items, ListUnder, Member, Object, OneOf, Optional,
    Spelled, SpelledUnder, Text, TextRef, U8, Under,
};
use std::alloc::{AllocError, Global};
use std::marker::PhantomData;

/// A topic to choose.
#[derive(Clone, Copy, Debug)]
pub enum Topic {
    News,
    Events,
}

/// A box that is checked.
#[derive(Clone, Copy, Debug)]
pub enum Tick {
    On,
}

/// Who signs up. A browser sends the topics and the terms only where they are chosen.
#[derive(Drop)]
pub struct SignUp<'t> {
    pub name: TextRef<'t>,
    pub username: TextRef<'t>,
    pub password: TextRef<'t>,
    pub password_again: TextRef<'t>,
    pub age: Option<u8>,
    /// Its field may be missing, and it may be empty.
    pub phone: Option<Option<TextRef<'t>>>,
    pub topics: Option<Items<Topic>>,
    pub terms: Option<Tick>,
}

impl<'t> Stated for SignUp<'t> {
    type Context = Words;

    ghost visits = { λ v words.
        field "name" (is (chars (between 1 40) v.name))
        and field "username" (is (alphanumeric v.username) and is (chars (between 3 25) v.username))
        and field "password" (is (chars (between 12 128) v.password))
        and field "password_again" (is (matches "password" (text_eq v.password_again v.password)))
        and field "age" (is (required v.age) and if_some (λ x. is (range (between 18 120) x)) v.age)
        and field "phone" (if_some (λ x. if_some (λ y. is (prefix "+" y) and is (bytes (between 9 16) y)) x) v.phone)
        and field "topics" (if_some (λ x. is (items (at_most 2) x)) v.topics)
        and field "terms" (is (⟦<Accepted<'static> as garde::fields::Rule<Option<Tick>>>⟧.finds (record { 0 = reference_to words }) v.terms)) };
}

/// A value of the type `SignUp` is made of what its form reads.
impl<'t> FromParts for SignUp<'t> {
    type Parts = (
        TextRef<'t>,
        TextRef<'t>,
        (TextRef<'t>, TextRef<'t>),
        Option<u8>,
        Option<Option<TextRef<'t>>>,
        (Option<Items<Topic>>, Option<Tick>),
    );

    ghost builds = { λ parts. record {
      name = parts.0;
      username = parts.1;
      password = parts.2.0;
      password_again = parts.2.1;
      age = parts.3;
      phone = parts.4;
      topics = parts.5.0;
      terms = parts.5.1;
    } };

    ghost parts_of = { λ v.
        (v.name, v.username, (v.password, v.password_again), v.age, v.phone, (v.topics, v.terms)) };

    ghost kept = { λ _. refl };

    fn from_parts(parts: Self::Parts) -> Self {
        let (name, username, (password, password_again), age, phone, (topics, terms)) = parts;
        SignUp {
            name,
            username,
            password,
            password_again,
            age,
            phone,
            topics,
            terms,
        }
    }
}

/// What the field `password_again` of `SignUp` asks beside others.
#[derive(Clone, Copy)]
struct SignUpPasswordAgainRules;

impl<'t> Rules<(TextRef<'t>, TextRef<'t>)> for SignUpPasswordAgainRules {
    ghost asks = { λ _ v. is (matches "password" (text_eq v.1 v.0)) };

    fn ask<'a, H: I18n>(
        &self,
        value: &(TextRef<'t>, TextRef<'t>),
        trail: &mut Trail<'a>,
        report: &mut Report,
        h: &H,
    ) -> Result<(), AllocError> {
        let (password, password_again) = value;
        Is(Matches {
            field: "password",
            other: password,
        })
        .ask(password_again, trail, report, h)
    }
}

impl Spelled for Topic {
    ghost spelled = { a_name (("news", News) ∷ ("events", Events) ∷ []) };
}

impl Spelled for Tick {
    ghost spelled = { a_name (("on", On) ∷ []) };
}

impl<'t> SpelledUnder for SignUp<'t> {
    ghost spelled = { λ words. made (λ parts. record {
      name = parts.0;
      username = parts.1;
      password = parts.2.0;
      password_again = parts.2.1;
      age = parts.3;
      phone = parts.4;
      topics = parts.5.0;
      terms = parts.5.1;
    }) (an_object (closed (six
        (member "name" (a_text (λ v. is (chars (between 1 40) v))))
        (member "username" (a_text (λ v. is (alphanumeric v) and is (chars (between 3 25) v))))
        (ruled
        (two
        (member "password" (a_text (λ v. is (chars (between 12 128) v))))
        (member "password_again" (a_text (λ _. none))))
        (λ v. field "password_again" (is (matches "password" (text_eq v.1 v.0)))))
        (member "age" (a_ruled
        (or_empty (a_written u8_texts (range (between 18 120) ∷ [])))
        (λ v. is (required v))))
        (optional "phone" (or_empty (a_text (λ v. is (prefix "+" v) and is (bytes (between 9 16) v)))))
        (two
        (optional "topics" (a_list_of (λ v. is (count (at_most 2) v)) ⟦<Topic as Spelled>⟧.spelled))
        (ruled
        (optional "terms" ⟦<Tick as Spelled>⟧.spelled)
        (λ v. field "terms" (is (⟦<Accepted<'static> as garde::fields::Rule<Option<Tick>>>⟧.finds (record { 0 = reference_to words }) v)))))))) };
}

/// The fields of the form that are sent once for each choice.
fn listed() -> [&'static str; 1]
    ensures { map (λ name. name.now) result ≡ codes "topics" ∷ [] }
{
    ["topics"]
}

/// Reads a value of the type `SignUp` from the fields of a web form, or reports every fault of its
/// form and of its rules.
#[tactic(auto, unfolding(garde::specs::Fields::Known))]
pub fn read_sign_up<'a, H: I18n + FormI18n>(
    alloc: Global,
    fields: &'a [FormField<'_>],
    words: &Words,
    h: &H,
) -> Result<Valid<SignUp<'a>>, ValidateError>
    ensures answer { result ≢ Err ValidateError.Memory → OfForm (codes "topics" ∷ []) (field_texts fields.now)
        (λ j. Answers ((⟦<SignUp<'static> as SpelledUnder>⟧.spelled words.now).visits (H.form_text h.now) j) (H.text h.now) (forget result)) }
    ensures value { IfOk result (λ v. OfForm (codes "topics" ∷ []) (field_texts fields.now)
        (λ j. (⟦<SignUp<'static> as SpelledUnder>⟧.spelled words.now).value j ≡ Some v)) }
{
    let lists = listed();
    let topic_form = OneOf(&[("news", Topic::News), ("events", Topic::Events)]);
    let tick_form = OneOf(&[("on", Tick::On)]);
    let sign_up_form = Built(
        Object(Closed((
            Member("name", Text(Is(length!(chars, min = 1, max = 40)))),
            Member(
                "username",
                Text((Is(Alphanumeric), Is(length!(chars, min = 3, max = 25)))),
            ),
            Checked(
                (
                    Member("password", Text(Is(length!(chars, min = 12, max = 128)))),
                    Member("password_again", Text(())),
                ),
                Under("password_again", SignUpPasswordAgainRules),
            ),
            Member(
                "age",
                Checked(
                    OrEmpty(Parsed(U8, Is(range!(min = 18, max = 120)))),
                    Is(Required),
                ),
            ),
            Optional(
                "phone",
                OrEmpty(Text((Is(Prefix("+")), Is(length!(min = 9, max = 16))))),
            ),
            (
                Optional("topics", ListUnder(Is(length!(max = 2)), topic_form)),
                Checked(
                    Optional("terms", tick_form),
                    Under("terms", Is(Accepted(words))),
                ),
            ),
        ))),
        PhantomData::<&SignUp<'_>>,
    );
    match read_form(alloc, fields, &lists, &sign_up_form, h) {
        Ok(value) => Ok(Valid::known(value, words)),
        Err(error) => Err(error),
    }
}
