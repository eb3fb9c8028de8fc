//! A page of values of any type, and what is known of each of them.
ghost use Rattle.std.specs.Prelude.{◌≡◌, ◌<◌, IfOk, IfSome, slice_get, vec_len};
ghost use Rattle.garde.specs.Fields.{◌and◌, between, each, field, is, items, slice, Some};

use crate::valid::basket::Basket;
use garde::fields::{Dive, Each, Field, Fields, Is};
use garde::{I18n, Report, Stated, Trail, Valid, Validate, length};
use std::alloc::{AllocError, Global};

/// From 1 to 20 values.
#[derive(Drop)]
pub struct Page<T> {
    pub entries: Vec<T>,
}

impl<T: Stated> Stated for Page<T> {
    type Context = T::Context;

    ghost visits = { λ v c.
        field "entries" (is (items (between 1 20) (slice v.entries)) and each (λ entry. T.visits entry c) (slice v.entries)) };
}

impl<T: Validate> Validate for Page<T> {
    fn validate_into<'a, H: I18n>(
        &'a self,
        ctx: &T::Context,
        trail: &mut Trail<'a>,
        report: &mut Report,
        h: &H,
    ) -> Result<(), AllocError> {
        let Self { entries } = self;
        let few = length!(min = 1, max = 20);
        Field("entries", entries, (Is(few), Each(Dive(ctx)))).visit_of(self, trail, report, h)
    }
}

/// The first article of one of the baskets. Each basket of a valid page has one.
#[tactic(auto, unfolding(garde::specs::Fields::Known))]
pub fn first_of(page: &Valid<Page<Basket>>, place: usize) -> &String
    requires { place < vec_len page.now.entries }
    ensures { IfSome (slice_get page.now.entries.items place) (λ basket. slice_get basket.articles.items 0 ≡ Some result.now) }
{
    &page.entries[place].articles[0]
}

/// The first article of the first basket. A valid page has a basket.
#[tactic(auto, unfolding(garde::specs::Fields::Known))]
pub fn first_of_first(page: &Valid<Page<Basket>>) -> &String
    ensures { IfSome (slice_get page.now.entries.items 0) (λ basket. slice_get basket.articles.items 0 ≡ Some result.now) }
{
    &page.entries[0].articles[0]
}

/// The baskets of a page, each of them valid. None of them is walked again.
#[tactic(auto, unfolding(garde::specs::Fields::Known))]
pub fn baskets(alloc: Global, page: Valid<Page<Basket>>) -> Result<Vec<Valid<Basket>>, AllocError>
    ensures { IfOk result (λ baskets. baskets.items ≡ page.entries.items) }
{
    let mut baskets = Vec::new(alloc);
    for basket in page.into_inner().entries {
        baskets.push(Valid::known(basket, &()))?;
    }
    Ok(baskets)
}
