//! The body of a request: a user with an age, tags and addresses.
ghost use Rattle.garde_check.specs.Body.{address_visits, body_visits};

mod json;

use crate::user::User;
use garde::fields::{
    Alphanumeric, CharLength, Check, Dive, Each, Field, Fields, Ip, Is, Length, Range, Required,
    Transparent,
};
use garde::i18n::IpKind;
use garde::{I18n, Report, Stated, Trail, Validate};
use std::alloc::AllocError;
use std::collections::BTreeMap;

/// A text that must be an IP address of version 4 or 6.
#[derive(Drop)]
pub struct Address(pub String);

impl Stated for Address {
    type Context = ();

    ghost visits = { λ address _. address_visits address };
}

impl Validate for Address {
    fn validate_into<'a, H: I18n>(
        &'a self,
        _ctx: &(),
        trail: &mut Trail<'a>,
        report: &mut Report,
        h: &H,
    ) -> Result<(), AllocError> {
        let Self(text) = self;
        Is(Ip(IpKind::Any)).check(text, trail, report, h)
    }
}

/// The body of a request.
#[derive(Drop)]
pub struct Body {
    /// Whose request it is. Its name has no component of the user's above it.
    pub user: User,
    /// The age in years, which must be there and be 18 to 120.
    pub age: Option<u32>,
    /// At most 5 tags, each of 1 to 20 characters that are letters or numbers.
    pub tags: Vec<String>,
    /// Addresses, each under its name.
    pub addresses: BTreeMap<String, Address>,
}

impl Stated for Body {
    type Context = ();

    ghost visits = { λ body _. body_visits body };
}

impl Validate for Body {
    fn validate_into<'a, H: I18n>(
        &'a self,
        ctx: &(),
        trail: &mut Trail<'a>,
        report: &mut Report,
        h: &H,
    ) -> Result<(), AllocError> {
        let Self {
            user,
            age,
            tags,
            addresses,
        } = self;
        let years = Range {
            min: Some(18),
            max: Some(120),
        };
        let tag = (Is(Alphanumeric), Is(CharLength { min: 1, max: 20 }));
        let few = (Is(Length { min: 0, max: 5 }), Each(tag));
        (
            Transparent(user, Dive(ctx)),
            Field("age", age, (Is(Required), Is(years))),
            Field("tags", tags, few),
            Field("addresses", addresses, Dive(ctx)),
        )
            .visit(trail, report, h)
    }
}
