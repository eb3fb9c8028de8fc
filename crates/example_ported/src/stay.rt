//! A stay in a hotel: rules of its own, each with a message.
ghost use Rattle.std.specs.Prelude.{IfOk, Some, [], refl, ◌&&◌, ◌||◌, ◌∷◌, ◌≡◌};
ghost use Rattle.garde_schema.specs.Bytes.{AnswersBytes, OfDocument};
ghost use Rattle.garde_schema.specs.Forms.{forget};
ghost use Rattle.garde_tape.specs.Input.{without_mark};
ghost use Rattle.garde.specs.Fields.{◌and◌, asks, byte_count, each, field, is, length, nat_eq, nat_le, nat_lt, none, not, quotient, remainder, slice, str, text_eq};
ghost use Rattle.garde_schema.specs.Spelling.{a_list, a_number, a_ruled, a_text, an_object, made, member, ruled, three, two, u16_numbers, u8_numbers};

use garde::fields::{Asks, Each, Field, Fields, Is, Rule, Rules};
use garde::{I18n, Report, RuleError, Stated, Trail, Valid, Validate};
use garde_schema::{
    Built, Checked, FormI18n, FromParts, Items, List, Member, Object, ReadError, Scratch,
    SpelledUnder, Text, TextRef, U8, U16, Under, Whole, read_json,
};
use std::alloc::{AllocError, Global};
use std::marker::PhantomData;

/// What is asked of stays.
#[derive(Clone, Copy)]
pub struct Season {
    /// The greatest discount.
    pub most: u8,
}

/// An offer, which no form reads.
#[derive(Drop)]
pub struct Offer {
    pub name: String,
    pub rooms: Vec<u32>,
    pub town: String,
}

impl Stated for Offer {
    type Context = ();

    ghost visits = { λ v _.
        field "name" (is (asks "a name of its own" ((not (text_eq (str v.name) (str v.town))) && (not (nat_eq (byte_count (str v.town)) 0)))))
        and field "rooms" (each (λ x. is (asks "an odd room" (nat_eq (remainder x 2) 0))) (slice v.rooms)) };
}

impl Validate for Offer {
    fn validate_into<'a, H: I18n>(
        &'a self,
        _ctx: &(),
        trail: &mut Trail<'a>,
        report: &mut Report,
        h: &H,
    ) -> Result<(), AllocError> {
        let Self { name, rooms, town } = self;
        (
            Field("name", name, Is(OfferNameRule(town))),
            Field("rooms", rooms, Each(Is(OfferRoomsRule))),
        )
            .visit(trail, report, h)
    }
}

/// A stay.
#[derive(Debug, Drop)]
pub struct Stay<'t> {
    pub from: u16,
    pub until: u16,
    pub guests: Items<TextRef<'t>>,
    pub beds: Items<u8>,
    pub note: TextRef<'t>,
    pub percent: u8,
}

impl<'t> Stated for Stay<'t> {
    type Context = Season;

    ghost visits = { λ v season.
        field "from" (is (asks "closed on Mondays" (not (nat_eq (remainder v.from 7) 0))))
        and field "until" (is (asks "leave after you arrive" (nat_lt v.from v.until)))
        and field "guests" (is (asks "no room" (nat_le (length v.guests) 4)) and is (asks "more beds than guests" (nat_le (length v.beds) (length v.guests))))
        and field "beds" (each (λ x. is (asks "no such room" ((nat_le 1 x) && (nat_le x 4)))) v.beds)
        and field "note" (is (asks "say who shares" ((not (nat_eq (byte_count v.note) 0)) || (nat_le (quotient (length v.guests) 2) (length v.beds)))))
        and field "percent" (is (asks "not in season" (nat_le v.percent season.most))) };
}

/// A value of the type `Stay` is made of what its form reads.
impl<'t> FromParts for Stay<'t> {
    type Parts = (
        (u16, u16),
        ((Items<TextRef<'t>>, Items<u8>), TextRef<'t>),
        u8,
    );

    ghost builds = { λ parts. record {
      from = parts.0.0;
      until = parts.0.1;
      guests = parts.1.0.0;
      beds = parts.1.0.1;
      note = parts.1.1;
      percent = parts.2;
    } };

    ghost parts_of = { λ v. ((v.from, v.until), ((v.guests, v.beds), v.note), v.percent) };

    ghost kept = { λ _. refl };

    fn from_parts(parts: Self::Parts) -> Self {
        let ((from, until), ((guests, beds), note), percent) = parts;
        Stay {
            from,
            until,
            guests,
            beds,
            note,
            percent,
        }
    }
}

/// What the field `until` of `Stay` asks beside others.
#[derive(Clone, Copy)]
struct StayUntilRules;

impl Rules<(u16, u16)> for StayUntilRules {
    ghost asks = { λ _ v. is (asks "leave after you arrive" (nat_lt v.0 v.1)) };

    fn ask<'a, H: I18n>(
        &self,
        value: &(u16, u16),
        trail: &mut Trail<'a>,
        report: &mut Report,
        h: &H,
    ) -> Result<(), AllocError> {
        let (from, until) = value;
        Is(StayUntilRule(from)).ask(until, trail, report, h)
    }
}

/// What the field `note` of `Stay` asks beside others.
#[derive(Clone, Copy)]
struct StayNoteRules;

impl<'t> Rules<((Items<TextRef<'t>>, Items<u8>), TextRef<'t>)> for StayNoteRules {
    ghost asks = { λ _ v.
        is (asks "say who shares" ((not (nat_eq (byte_count v.1) 0)) || (nat_le (quotient (length v.0.0) 2) (length v.0.1)))) };

    fn ask<'a, H: I18n>(
        &self,
        value: &((Items<TextRef<'t>>, Items<u8>), TextRef<'t>),
        trail: &mut Trail<'a>,
        report: &mut Report,
        h: &H,
    ) -> Result<(), AllocError> {
        let ((guests, beds), note) = value;
        Is(StayNoteRule(beds, guests)).ask(note, trail, report, h)
    }
}

/// What the field `guests` of `Stay` asks beside others.
#[derive(Clone, Copy)]
struct StayGuestsRules;

impl<'t> Rules<(Items<TextRef<'t>>, Items<u8>)> for StayGuestsRules {
    ghost asks = { λ _ v. is (asks "more beds than guests" (nat_le (length v.1) (length v.0))) };

    fn ask<'a, H: I18n>(
        &self,
        value: &(Items<TextRef<'t>>, Items<u8>),
        trail: &mut Trail<'a>,
        report: &mut Report,
        h: &H,
    ) -> Result<(), AllocError> {
        let (guests, beds) = value;
        Is(StayGuestsRule2(beds)).ask(guests, trail, report, h)
    }
}

impl<'t> SpelledUnder for Stay<'t> {
    ghost spelled = { λ season. made (λ parts. record {
      from = parts.0.0;
      until = parts.0.1;
      guests = parts.1.0.0;
      beds = parts.1.0.1;
      note = parts.1.1;
      percent = parts.2;
    }) (an_object (three
        (ruled
        (two
        (member "from" (a_number u16_numbers ((λ v. asks "closed on Mondays" (not (nat_eq (remainder v 7) 0))) ∷ [])))
        (member "until" (a_number u16_numbers [])))
        (λ v. field "until" (is (asks "leave after you arrive" (nat_lt v.0 v.1)))))
        (ruled
        (two
        (ruled
        (two
        (member "guests" (a_ruled
        (a_list (a_text (λ _. none)))
        (λ v. is (asks "no room" (nat_le (length v) 4)))))
        (member "beds" (a_list (a_number u8_numbers ((λ v. asks "no such room" ((nat_le 1 v) && (nat_le v 4))) ∷ [])))))
        (λ v. field "guests" (is (asks "more beds than guests" (nat_le (length v.1) (length v.0))))))
        (member "note" (a_text (λ _. none))))
        (λ v. field "note" (is (asks "say who shares" ((not (nat_eq (byte_count v.1) 0)) || (nat_le (quotient (length v.0.0) 2) (length v.0.1)))))))
        (member "percent" (a_number u8_numbers ((λ v. asks "not in season" (nat_le v season.most)) ∷ []))))) };
}

/// Reads a value of the type `Stay` in JSON, or reports every fault of its form and of its rules.
#[tactic(auto, unfolding(garde::specs::Fields::Known))]
pub fn read_stay<'a, H: I18n + FormI18n>(
    alloc: Global,
    bytes: &'a [u8],
    scratch: &'a mut Scratch,
    season: &Season,
    h: &H,
) -> Result<Valid<Stay<'a>>, ReadError>
    ensures answer { AnswersBytes
        (λ j. (⟦<Stay<'static> as SpelledUnder>⟧.spelled season.now).visits (H.form_text h.now) j)
        (H.text h.now) (without_mark bytes.now) (forget result) }
    ensures value { IfOk result (λ v. OfDocument (without_mark bytes.now)
        (λ j. (⟦<Stay<'static> as SpelledUnder>⟧.spelled season.now).value j ≡ Some v)) }
{
    let stay_form = Built(
        Object((
            Checked(
                (
                    Member("from", Whole(U16, Is(IsNoMonday))),
                    Member("until", Whole(U16, ())),
                ),
                Under("until", StayUntilRules),
            ),
            Checked(
                (
                    Checked(
                        (
                            Member("guests", Checked(List(Text(())), Is(StayGuestsRule))),
                            Member("beds", List(Whole(U8, Is(StayBedsRule)))),
                        ),
                        Under("guests", StayGuestsRules),
                    ),
                    Member("note", Text(())),
                ),
                Under("note", StayNoteRules),
            ),
            Member("percent", Whole(U8, Is(StayPercentRule(season)))),
        )),
        PhantomData::<&Stay<'_>>,
    );
    match read_json(alloc, bytes, scratch, &stay_form, h) {
        Ok(value) => Ok(Valid::known(value, season)),
        Err(error) => Err(error),
    }
}

/// What a rule of the field `name` of `Offer` asks of its value.
#[derive(Clone, Copy)]
struct OfferNameRule<'c>(&'c String);

impl Rule<String> for OfferNameRule<'_> {
    ghost finds = { λ rule value.
        asks "a name of its own" ((not (text_eq (str value) (str rule.0.now))) && (not (nat_eq (byte_count (str rule.0.now)) 0))) };

    fn find<H: I18n>(&self, alloc: Global, value: &String, h: &H) -> Result<(), RuleError> {
        let town = self.0;
        Asks(
            "a name of its own",
            value.as_str() != town.as_str() && town.as_str().len() != 0,
        )
        .find(alloc, value, h)
    }
}

/// What a rule of the field `rooms` of `Offer` asks of its value.
#[derive(Clone, Copy)]
struct OfferRoomsRule;

impl Rule<u32> for OfferRoomsRule {
    ghost finds = { λ _ value. asks "an odd room" (nat_eq (remainder value 2) 0) };

    fn find<H: I18n>(&self, alloc: Global, value: &u32, h: &H) -> Result<(), RuleError> {
        Asks("an odd room", *value % 2 == 0).find(alloc, value, h)
    }
}

/// What the function `is_no_monday` asks of a value.
#[derive(Clone, Copy)]
struct IsNoMonday;

impl Rule<u16> for IsNoMonday {
    ghost finds = { λ _ value. asks "closed on Mondays" (not (nat_eq (remainder value 7) 0)) };

    fn find<H: I18n>(&self, alloc: Global, value: &u16, h: &H) -> Result<(), RuleError> {
        Asks("closed on Mondays", *value % 7 != 0).find(alloc, value, h)
    }
}

/// What a rule of the field `until` of `Stay` asks of its value.
#[derive(Clone, Copy)]
struct StayUntilRule<'c>(&'c u16);

impl Rule<u16> for StayUntilRule<'_> {
    ghost finds = { λ rule value. asks "leave after you arrive" (nat_lt rule.0.now value) };

    fn find<H: I18n>(&self, alloc: Global, value: &u16, h: &H) -> Result<(), RuleError> {
        let from = self.0;
        Asks("leave after you arrive", *value > *from).find(alloc, value, h)
    }
}

/// What a rule of the field `guests` of `Stay` asks of its value.
#[derive(Clone, Copy)]
struct StayGuestsRule;

impl<'t> Rule<Items<TextRef<'t>>> for StayGuestsRule {
    ghost finds = { λ _ value. asks "no room" (nat_le (length value) 4) };

    fn find<H: I18n>(
        &self,
        alloc: Global,
        value: &Items<TextRef<'t>>,
        h: &H,
    ) -> Result<(), RuleError> {
        Asks("no room", value.as_slice().len() <= 4).find(alloc, value, h)
    }
}

/// What a rule of the field `guests` of `Stay` asks of its value.
#[derive(Clone, Copy)]
struct StayGuestsRule2<'c>(&'c Items<u8>);

impl<'t> Rule<Items<TextRef<'t>>> for StayGuestsRule2<'_> {
    ghost finds = { λ rule value.
        asks "more beds than guests" (nat_le (length rule.0.now) (length value)) };

    fn find<H: I18n>(
        &self,
        alloc: Global,
        value: &Items<TextRef<'t>>,
        h: &H,
    ) -> Result<(), RuleError> {
        let beds = self.0;
        Asks(
            "more beds than guests",
            beds.as_slice().len() <= value.as_slice().len(),
        )
        .find(alloc, value, h)
    }
}

/// What a rule of the field `beds` of `Stay` asks of its value.
#[derive(Clone, Copy)]
struct StayBedsRule;

impl Rule<u8> for StayBedsRule {
    ghost finds = { λ _ value. asks "no such room" ((nat_le 1 value) && (nat_le value 4)) };

    fn find<H: I18n>(&self, alloc: Global, value: &u8, h: &H) -> Result<(), RuleError> {
        Asks("no such room", *value >= 1 && *value <= 4).find(alloc, value, h)
    }
}

/// What a rule of the field `note` of `Stay` asks of its value.
#[derive(Clone, Copy)]
struct StayNoteRule<'c, 't>(&'c Items<u8>, &'c Items<TextRef<'t>>);

impl<'t> Rule<TextRef<'t>> for StayNoteRule<'_, 't> {
    ghost finds = { λ rule value.
        asks "say who shares" ((not (nat_eq (byte_count value) 0)) || (nat_le (quotient (length rule.1.now) 2) (length rule.0.now))) };

    fn find<H: I18n>(&self, alloc: Global, value: &TextRef<'t>, h: &H) -> Result<(), RuleError> {
        let beds = self.0;
        let guests = self.1;
        Asks(
            "say who shares",
            value.text().len() != 0 || beds.as_slice().len() >= guests.as_slice().len() / 2,
        )
        .find(alloc, value, h)
    }
}

/// What a rule of the field `percent` of `Stay` asks of its value.
#[derive(Clone, Copy)]
struct StayPercentRule<'c>(&'c Season);

impl Rule<u8> for StayPercentRule<'_> {
    ghost finds = { λ rule value. asks "not in season" (nat_le value rule.0.now.most) };

    fn find<H: I18n>(&self, alloc: Global, value: &u8, h: &H) -> Result<(), RuleError> {
        let season = self.0;
        Asks("not in season", *value <= season.most).find(alloc, value, h)
    }
}
