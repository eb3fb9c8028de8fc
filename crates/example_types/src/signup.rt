//! Fields that depend on one another, conditions, user-defined rules and your own messages.
ghost use Rattle.garde.specs.Fields.{◌and◌, asks, at_least, between, bytes, chars, either, Equals, field, if_some, is, is_ipv4, is_ipv6, matches, not, range, required, str, suffix, text_eq, when, with_message};

use garde::fields::{
    Field, Fields, IfSome, Is, Matches, Required, Rule, Suffix, When, WithMessage,
};
use garde::rules::ip::{is_ipv4, is_ipv6};
use garde::{I18n, Report, RuleError, Stated, Trail, Validate, length, range};
use std::alloc::{AllocError, Global};
use std::borrow::CowStr;

/// The rule that the terms are accepted.
#[derive(Clone, Copy)]
pub struct Accepted;

impl Rule<bool> for Accepted {
    ghost finds = { λ _ accepted. asks "accept the terms" accepted };

    fn find<H: I18n>(&self, alloc: Global, value: &bool, _h: &H) -> Result<(), RuleError> {
        if *value {
            Ok(())
        } else {
            Err(RuleError::of(alloc, Ok(CowStr::Borrowed("accept the terms"))))
        }
    }
}

/// Who signs up.
#[derive(Drop)]
pub struct Signup {
    pub name: String,
    pub password: String,
    pub again: String,
    pub age: Option<u8>,
    pub host: String,
    pub terms: bool,
}

/// Whether a host is an address.
fn is_address(host: &str) -> bool
    ensures { Equals result (either (is_ipv4 host.now) (is_ipv6 host.now)) }
{
    is_ipv4(host) || is_ipv6(host)
}

impl Stated for Signup {
    type Context = ();

    ghost visits = { λ v _.
        field "name" (is (with_message "choose a longer name" (bytes (between 3 25) (str v.name))))
        and field "password" (is (chars (at_least 12) (str v.password)))
        and field "again" (is (matches "password" (text_eq (str v.again) (str v.password))))
        and field "age" (is (required v.age) and if_some (λ age. is (range (between 18 120) age)) v.age)
        and field "host" (when (not (either (is_ipv4 (str v.host)) (is_ipv6 (str v.host)))) (is (suffix ".org" (str v.host))))
        and field "terms" (is (asks "accept the terms" v.terms)) };
}

impl Validate for Signup {
    fn validate_into<'a, H: I18n>(
        &'a self,
        _ctx: &(),
        trail: &mut Trail<'a>,
        report: &mut Report,
        h: &H,
    ) -> Result<(), AllocError> {
        let Self {
            name,
            password,
            again,
            age,
            host,
            terms,
        } = self;
        let long = WithMessage(length!(min = 3, max = 25), "choose a longer name");
        let same = Matches {
            field: "password",
            other: password,
        };
        let adult = IfSome(Is(range!(min = 18, max = 120)));
        let named = !is_address(host.as_str());
        (
            Field("name", name, Is(long)),
            Field("password", password, Is(length!(chars, min = 12))),
            Field("again", again, Is(same)),
            Field("age", age, (Is(Required), adult)),
            Field("host", host, When(named, Is(Suffix(".org")))),
            Field("terms", terms, Is(Accepted)),
        )
            .visit(trail, report, h)
    }
}
