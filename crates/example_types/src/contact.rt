//! Rules over several fields: one of two is given, one is required under a condition, one repeats another, and no two
//! items of a list are the same.
ghost use Rattle.garde.specs.Fields.{◌and◌, asks, at_most, either, field, is, is_some, items, matches, option_eq, required_if, slice, str, text_eq, text_is, unique};

use garde::fields::{Asks, Field, Fields, Is, Matches, RequiredIf, Same, Unique};
use garde::{I18n, Report, Stated, Trail, Validate, length};
use std::alloc::AllocError;

/// A link, with the title that it is shown under.
#[derive(Drop)]
pub struct Link {
    pub title: String,
    pub address: String,
}

/// That two links have the same title.
#[derive(Clone, Copy)]
pub struct Title;

impl Same<Link> for Title {
    ghost same = { λ _ one other. text_eq (str one.title) (str other.title) };

    fn are_same(&self, one: &Link, other: &Link) -> bool {
        one.title == other.title
    }
}

/// How someone is reached: by an email, which is given twice, or by phone. A business has a name.
#[derive(Drop)]
pub struct Contact {
    pub kind: String,
    pub business: Option<String>,
    pub email: Option<String>,
    pub again: Option<String>,
    pub phone: Option<String>,
    pub links: Vec<Link>,
}

impl Stated for Contact {
    type Context = ();

    ghost visits = { λ v _.
        field "business" (is (required_if (text_is "business" (str v.kind)) v.business))
        and field "email" (is (asks "give an email or a phone" (either (is_some v.email) (is_some v.phone))))
        and field "again" (is (matches "email" (option_eq (λ x y. text_eq (str x) (str y)) v.again v.email)))
        and field "links" (is (items (at_most 9) (slice v.links))
        and unique "there is a link of this title" (λ one other. text_eq (str one.title) (str other.title)) (slice v.links)) };
}

impl Validate for Contact {
    fn validate_into<'a, H: I18n>(
        &'a self,
        _ctx: &(),
        trail: &mut Trail<'a>,
        report: &mut Report,
        h: &H,
    ) -> Result<(), AllocError> {
        let Self {
            kind,
            business,
            email,
            again,
            phone,
            links,
        } = self;
        let named = RequiredIf(kind.as_str() == "business");
        let reached = Asks(
            "give an email or a phone",
            email.is_some() || phone.is_some(),
        );
        let same = Matches {
            field: "email",
            other: email,
        };
        let apart = Unique("there is a link of this title", Title);
        (
            Field("business", business, Is(named)),
            Field("email", email, Is(reached)),
            Field("again", again, Is(same)),
            Field("links", links, (Is(length!(max = 9)), apart)),
        )
            .visit(trail, report, h)
    }
}
