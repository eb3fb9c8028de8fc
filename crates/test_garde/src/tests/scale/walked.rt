//! A user-defined type: a length of its own, a check that reads the context, and two fields that
//! match.
ghost use Rattle.std.specs.Prelude.{if◌then◌else◌};
ghost use Rattle.garde.specs.Fields.{◌and◌, between, byte_count, codes, count, field, is, matches, nat_lt, None, own, Some, str, text_eq};

use super::label::Label;
use crate::tests::told::{reads, tells_all};
use crate::tests::{OrEnd, text_of};
use garde::fields::{Field, Fields, Is, Length, Matches, Rule};
use garde::rules::length::HasSimpleLength;
use garde::rules::{adapt, inner, prefix};
use garde::{Component, DefaultI18n, I18n, Report, RuleError, Stated, Trail, Validate};
use std::alloc::{AllocError, Global};
use std::borrow::CowStr;

/// A purse, whose length is the number of its coins.
#[derive(Clone, Copy)]
struct Purse {
    coins: usize,
}

impl HasSimpleLength for Purse {
    ghost simple_len = { λ purse. purse.coins };

    fn length(&self) -> usize {
        self.coins
    }
}

/// What a bank asks of its accounts: the least number of bytes of a password.
#[derive(Clone, Copy)]
struct Bank {
    least: usize,
}

/// The rule that a password is as long as the bank asks for.
#[derive(Clone, Copy)]
struct Strong<'c>(&'c Bank);

impl Rule<String> for Strong<'_> {
    ghost finds = { λ rule v.
        if nat_lt (byte_count (str v)) rule.0.now.least then Some (own (codes "weak")) else None };

    fn find<H: I18n>(&self, alloc: Global, value: &String, _h: &H) -> Result<(), RuleError> {
        if value.len() < self.0.least {
            Err(RuleError::of(alloc, Ok(CowStr::Borrowed("weak"))))
        } else {
            Ok(())
        }
    }
}

/// An account.
#[derive(Drop)]
struct Account {
    purse: Purse,
    password: String,
    again: String,
}

impl Stated for Account {
    type Context = Bank;

    ghost visits = { λ v bank.
        field "purse" (is (count (between 1 9) v.purse.coins))
        and field "password"
        (is (if nat_lt (byte_count (str v.password)) bank.least then Some (own (codes "weak")) else None))
        and field "again" (is (matches "password" (text_eq (str v.again) (str v.password)))) };
}

impl Validate for Account {
    fn validate_into<'a, H: I18n>(
        &'a self,
        ctx: &Bank,
        trail: &mut Trail<'a>,
        report: &mut Report,
        h: &H,
    ) -> Result<(), AllocError> {
        let Self {
            purse,
            password,
            again,
        } = self;
        let same = Matches {
            field: "password",
            other: password,
        };
        (
            Field("purse", purse, Is(Length { min: 1, max: 9 })),
            Field("password", password, Is(Strong(ctx))),
            Field("again", again, Is(same)),
        )
            .visit(trail, report, h)
    }
}

/// Coins, a second password, what a bank asks for, and what is reported.
static ACCOUNTS: [(usize, &str, usize, &str); 7] = [
    (1, "secret", 6, ""),
    (9, "secret", 0, ""),
    (0, "secret", 6, "purse: length is lower than 1\n"),
    (10, "secret", 6, "purse: length is greater than 9\n"),
    (1, "secret", 7, "password: weak\n"),
    (1, "Secret", 6, "again: does not match password field\n"),
    (
        0,
        "",
        7,
        "purse: length is lower than 1\npassword: weak\nagain: does not match password field\n",
    ),
];

#[test]
fn a_length_a_context_and_a_match(rt: HostRuntime) {
    for (coins, again, least, text) in &ACCOUNTS {
        let account = Account {
            purse: Purse { coins: *coins },
            password: text_of(&rt, rt.alloc(), "secret"),
            again: text_of(&rt, rt.alloc(), again),
        };
        let answer = account.validate_with(rt.alloc(), &Bank { least: *least });
        assert!(rt; tells_all(rt.alloc(), answer, text), "{text}");
    }
}

// Asks the text of a label for its beginning, under its component.
fn check_label<'a>(
    label: &Label,
    component: Component<'a>,
    trail: &mut Trail<'a>,
    report: &mut Report,
) -> Result<(), AllocError> {
    let alloc = trail.alloc();
    trail.push(component)?;
    let answer = adapt(
        label,
        |label| label.text.as_str(),
        |text| prefix::apply(alloc, text, ("t-",), &DefaultI18n),
    );
    let put = trail.put(report, answer);
    trail.pop();
    put
}

// Each of four labels.
#[test]
fn a_view_of_each_item(rt: HostRuntime) {
    let alloc = rt.alloc();
    let mut labels = Vec::new(alloc);
    for text in ["t-1", "1", "t-", ""] {
        let text = text_of(&rt, alloc, text);
        labels.push(Label { text }).or_end(&rt);
    }
    let mut report = Report::new(alloc);
    let mut trail = Trail::new(alloc);
    inner::apply(
        &labels,
        &mut trail,
        &mut report,
        |label: &Label, component, trail, report| { check_label(label, component, trail, report) },
    )
    .or_end(&rt);
    let text = "[1]: value does not begin with \"t-\"\n[3]: value does not begin with \"t-\"\n";
    assert!(rt; reads(alloc, &report, text) == Ok(true));
}
