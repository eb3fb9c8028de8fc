//! Tests of credit card and phone numbers, on values that keep their answer.
ghost use Rattle.std.specs.Prelude.{Result};

use super::{finds, tells};
use garde_i18n::DefaultI18n;
use garde_rules::credit_card::{self, CreditCard, InvalidCreditCard};
use garde_rules::ip::IpKind;
use garde_rules::phone_number::{self, InvalidPhoneNumber, PhoneNumber};
use garde_rules::values;

/// A value that gives this answer when it is asked for a credit card number.
#[derive(Clone, Copy)]
struct Card(Result<(), InvalidCreditCard>);

impl CreditCard for Card {
    ghost answer = { λ card. card.0 };

    fn validate_credit_card(&self) -> Result<(), InvalidCreditCard> {
        self.0
    }
}

/// A value that gives this answer when it is asked for a phone number.
#[derive(Clone, Copy)]
struct Phone(Result<(), InvalidPhoneNumber>);

impl PhoneNumber for Phone {
    ghost answer = { λ phone. phone.0 };

    fn validate_phone_number(&self) -> Result<(), InvalidPhoneNumber> {
        self.0
    }
}

#[test]
fn asks_for_a_credit_card_number(rt: HostRuntime) {
    let alloc = rt.alloc();
    let h = DefaultI18n;
    let wrong = Card(Err(InvalidCreditCard::InvalidLength));
    let fault = Some("not a valid credit card number: invalid length");
    assert!(rt;
        tells(credit_card::apply(alloc, &Card(Ok(())), (), &h), None)
            && tells(credit_card::apply(alloc, &wrong, (), &h), fault)
            && tells(credit_card::apply(alloc, &None::<Card>, (), &h), None)
            && tells(credit_card::apply(alloc, &Some(wrong), (), &h), fault)
    );
}

#[test]
fn asks_for_a_phone_number(rt: HostRuntime) {
    let alloc = rt.alloc();
    let h = DefaultI18n;
    let long = Phone(Err(InvalidPhoneNumber::TooLong));
    let fault = Some("not a valid phone number: the number is too long");
    let invalid = Phone(Err(InvalidPhoneNumber::Invalid));
    let other = Some("not a valid phone number");
    assert!(rt;
        tells(phone_number::apply(alloc, &Phone(Ok(())), (), &h), None)
            && tells(phone_number::apply(alloc, &long, (), &h), fault)
            && tells(phone_number::apply(alloc, &invalid, (), &h), other)
            && tells(phone_number::apply(alloc, &None::<Phone>, (), &h), None)
            && tells(phone_number::apply(alloc, &Some(long), (), &h), fault)
    );
}

#[test]
fn finds_the_same_by_rules_as_values(rt: HostRuntime) {
    let alloc = rt.alloc();
    let card = Card(Err(InvalidCreditCard::InvalidLuhn));
    let luhn = Some("not a valid credit card number: invalid luhn");
    let phone = Phone(Err(InvalidPhoneNumber::Invalid));
    let invalid = Some("not a valid phone number");
    let version = values::Ip(IpKind::V6);
    let other = Some("not a valid IPv6 address");
    assert!(rt;
        finds(alloc, &values::CreditCard, &card, luhn)
            && finds(alloc, &values::PhoneNumber, &phone, invalid)
            && finds(alloc, &version, &"1.2.3.4", other)
            && finds(alloc, &version, &"::1", None)
    );
}
