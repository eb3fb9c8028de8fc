//! Numbers of cards and phones, whose types say themselves what is one.
ghost use Rattle.garde.specs.Fields.{◌and◌, byte_count, choose, credit_card, Err, field, is, nat_eq, nat_le, Ok, phone_number, str};
ghost use Rattle.garde.specs.Cards.{InvalidLength};
ghost use Rattle.garde.specs.Phones.{TooLong};

use garde::fields::{CreditCard, Field, Fields, Is, PhoneNumber};
use garde::i18n::{InvalidCreditCard, InvalidPhoneNumber};
use garde::rules::{credit_card, phone_number};
use garde::{I18n, Report, Stated, Trail, Validate};
use std::alloc::AllocError;

/// A card's number, of 16 bytes.
#[derive(Drop)]
pub struct CardText(pub String);

impl credit_card::CreditCard for CardText {
    ghost answer = { λ v. choose (nat_eq (byte_count (str v.0)) 16) (Ok tt) (Err InvalidLength) };

    fn validate_credit_card(&self) -> Result<(), InvalidCreditCard> {
        if self.0.len() == 16 {
            Ok(())
        } else {
            Err(InvalidCreditCard::InvalidLength)
        }
    }
}

/// A phone's number, of 15 bytes at most.
#[derive(Drop)]
pub struct PhoneText(pub String);

impl phone_number::PhoneNumber for PhoneText {
    ghost answer = { λ v. choose (nat_le (byte_count (str v.0)) 15) (Ok tt) (Err TooLong) };

    fn validate_phone_number(&self) -> Result<(), InvalidPhoneNumber> {
        if self.0.len() <= 15 {
            Ok(())
        } else {
            Err(InvalidPhoneNumber::TooLong)
        }
    }
}

/// What is paid with, and whom to call.
#[derive(Drop)]
pub struct Payment {
    pub card: CardText,
    pub phone: PhoneText,
}

impl Stated for Payment {
    type Context = ();

    ghost visits = { λ v _.
        field "card" (is (credit_card (⟦<CardText as credit_card::CreditCard>⟧.answer v.card)))
        and field "phone" (is (phone_number (⟦<PhoneText as phone_number::PhoneNumber>⟧.answer v.phone))) };
}

impl Validate for Payment {
    fn validate_into<'a, H: I18n>(
        &'a self,
        _ctx: &(),
        trail: &mut Trail<'a>,
        report: &mut Report,
        h: &H,
    ) -> Result<(), AllocError> {
        let Self { card, phone } = self;
        (
            Field("card", card, Is(CreditCard)),
            Field("phone", phone, Is(PhoneNumber)),
        )
            .visit(trail, report, h)
    }
}
