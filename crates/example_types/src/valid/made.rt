//! Valid values that are made, with no walk.
ghost use Rattle.std.specs.Prelude.{◌≡◌, ◌≤◌, ◌∷◌, [], IfOk, IfSome, IsSome};

use crate::valid::basket::Basket;
use crate::valid::bill::Bill;
use crate::valid::page::Page;
use garde::Valid;
use std::alloc::{AllocError, Global};

/// A bill of two.
#[tactic(auto, unfolding(garde::specs::Fields::Known))]
pub fn for_two(cents: u32) -> Valid<Bill>
    ensures { (result.cents ≡ cents) × (result.guests ≡ 2) }
{
    Valid::known(Bill { cents, guests: 2 }, &())
}

/// A bill of so many guests, or none where there are none or too many.
#[tactic(auto, unfolding(garde::specs::Fields::Known))]
pub fn bill(cents: u32, guests: u32) -> Option<Valid<Bill>>
    ensures made { IfSome result (λ bill. (bill.cents ≡ cents) × (bill.guests ≡ guests)) }
    ensures given { (1 ≤ guests) × (guests ≤ 40) → IsSome result }
{
    if guests == 0 || guests > 40 {
        return None;
    }
    Some(Valid::known(Bill { cents, guests }, &()))
}

/// A basket of one article.
#[tactic(auto, unfolding(garde::specs::Fields::Known))]
pub fn basket(alloc: Global, article: String) -> Result<Valid<Basket>, AllocError>
    ensures { IfOk result (λ basket. basket.articles.items ≡ article ∷ []) }
{
    let articles = vec![in alloc; article]?;
    Ok(Valid::known(Basket { articles }, &()))
}

/// A page of one valid basket.
#[tactic(auto, unfolding(garde::specs::Fields::Known))]
pub fn page(alloc: Global, basket: Valid<Basket>) -> Result<Valid<Page<Basket>>, AllocError>
    ensures { IfOk result (λ page. page.entries.items ≡ basket ∷ []) }
{
    let entries = vec![in alloc; basket.into_inner()]?;
    Ok(Valid::known(Page { entries }, &()))
}
