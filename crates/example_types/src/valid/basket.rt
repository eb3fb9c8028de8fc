//! A list that is not empty, and its first item.
ghost use Rattle.std.specs.Prelude.{◌≡◌, slice_get};
ghost use Rattle.garde.specs.Fields.{between, field, is, items, slice, Some};

use garde::fields::{Field, Fields, Is};
use garde::{I18n, Report, Stated, Trail, Valid, Validate, length};
use std::alloc::AllocError;

/// The names of 1 to 50 articles.
#[derive(Debug, Drop)]
pub struct Basket {
    pub articles: Vec<String>,
}

impl Stated for Basket {
    type Context = ();

    ghost visits = { λ v _. field "articles" (is (items (between 1 50) (slice v.articles))) };
}

impl Validate for Basket {
    fn validate_into<'a, H: I18n>(
        &'a self,
        _ctx: &(),
        trail: &mut Trail<'a>,
        report: &mut Report,
        h: &H,
    ) -> Result<(), AllocError> {
        let Self { articles } = self;
        Field("articles", articles, Is(length!(min = 1, max = 50))).visit(trail, report, h)
    }
}

/// The first article, which a valid basket has.
#[tactic(auto, unfolding(garde::specs::Fields::Known))]
pub fn first(basket: &Valid<Basket>) -> &String
    ensures { slice_get basket.now.articles.items 0 ≡ Some result.now }
{
    &basket.articles[0]
}
