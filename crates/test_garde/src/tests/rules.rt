//! Compiled patterns, and rules that do not hold, where memory runs out.
ghost use Rattle.garde.specs.Fields.{Result};

use garde::i18n::{InvalidCreditCard, InvalidPhoneNumber, IpKind};
use garde::rules::credit_card::CreditCard;
use garde::rules::pattern::regex::{PatternRefused, Regex};
use garde::rules::phone_number::PhoneNumber;
use garde::rules::{
    alphanumeric, ascii, contains, credit_card, ip, length, matches, pattern, phone_number, prefix,
    range, required, suffix, url,
};
use garde::{DefaultI18n, RuleError};
use std::alloc::{AllocError, Global};
use test_memory::{Met, Scarce};

/// A value that gives this answer when it is asked for a credit card number.
#[derive(Clone, Copy)]
pub struct Card(pub Result<(), InvalidCreditCard>);

impl CreditCard for Card {
    ghost answer = { λ card. card.0 };

    fn validate_credit_card(&self) -> Result<(), InvalidCreditCard> {
        self.0
    }
}

/// A value that gives this answer when it is asked for a phone number.
#[derive(Clone, Copy)]
pub struct Phone(pub Result<(), InvalidPhoneNumber>);

impl PhoneNumber for Phone {
    ghost answer = { λ phone. phone.0 };

    fn validate_phone_number(&self) -> Result<(), InvalidPhoneNumber> {
        self.0
    }
}

/// The fault of each rule.
static FAULTS: [&str; 18] = [
    "not ascii",
    "not alphanumeric",
    "does not contain \"b\"",
    "value does not begin with \"b\"",
    "does not end with \"b\"",
    "does not match pattern /^[0-9]{5}$/",
    "not a valid url: relative URL without a base",
    "not a valid IP address",
    "not a valid credit card number: invalid length",
    "not a valid phone number: the number is too long",
    "does not match other field",
    "greater than 3",
    "not set",
    "length is lower than 5",
    "length is lower than 5",
    "length is lower than 5",
    "length is lower than 5",
    "length is lower than 5",
];

// What the rule of this index finds in a text of one character, or in a value like it.
fn find(alloc: Global, index: usize, code: &Regex) -> Result<(), RuleError> {
    let h = &DefaultI18n;
    let text = "é ";
    let none: Option<u8> = None;
    match index {
        0 => ascii::apply(alloc, &text, (), h),
        1 => alphanumeric::apply(alloc, &text, (), h),
        2 => contains::apply(alloc, &text, ("b",), h),
        3 => prefix::apply(alloc, &text, ("b",), h),
        4 => suffix::apply(alloc, &text, ("b",), h),
        5 => pattern::apply(alloc, &text, (code,), h),
        6 => url::apply(alloc, &text, (), h),
        7 => ip::apply(alloc, &text, (IpKind::Any,), h),
        8 => credit_card::apply(alloc, &Card(Err(InvalidCreditCard::InvalidLength)), (), h),
        9 => phone_number::apply(alloc, &Phone(Err(InvalidPhoneNumber::TooLong)), (), h),
        10 => matches::apply(alloc, &1u8, ("other", &2u8), h),
        11 => range::apply(alloc, &4u8, (None, Some(3)), h),
        12 => required::apply(alloc, &none, (), h),
        13 => length::simple::apply(alloc, &text, (5, 9), h),
        14 => length::bytes::apply(alloc, &text, (5, 9), h),
        15 => length::chars::apply(alloc, &text, (5, 9), h),
        16 => length::graphemes::apply(alloc, &text, (5, 9), h),
        _ => length::utf16::apply(alloc, &text, (5, 9), h),
    }
}

/// The compiled pattern of this text.
pub fn regex(alloc: Global, text: &str) -> Result<Regex, AllocError> {
    match Regex::new(alloc, text) {
        Ok(regex) => Ok(regex),
        Err(_) => Err(AllocError),
    }
}

/// Each rule that does not hold.
pub fn rules(alloc: Global, memory: &mut Scarce) -> Result<Met, AllocError> {
    let code = regex(alloc, "^[0-9]{5}$")?;
    let mut met = Met::Ample;
    for (index, wanted) in FAULTS.iter().enumerate() {
        memory.begin();
        let answer = find(alloc, index, &code);
        memory.end();
        met = met.and(match &answer {
            Err(RuleError::Fault(error)) if error.message() == *wanted => Met::Ample,
            Err(RuleError::Memory) => Met::Want,
            _ => Met::Wrong,
        });
    }
    Ok(met)
}

/// A pattern that is compiled.
pub fn compile(alloc: Global, memory: &mut Scarce) -> Result<Met, AllocError> {
    memory.begin();
    let answer = Regex::new(alloc, "^[0-9]{5}$");
    memory.end();
    Ok(match answer {
        Ok(code) if code.as_str() == "^[0-9]{5}$" => Met::Ample,
        Err(PatternRefused::Other) => Met::Want,
        _ => Met::Wrong,
    })
}
