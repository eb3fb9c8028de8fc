//! Code that relies on valid values, on valid ones, and what is not valid.
use crate::tests::{OrEnd, text_of};
use example_types::valid::basket::{Basket, first};
use example_types::valid::bill::{Bill, share};
use example_types::valid::level::{Level, byte};
use example_types::valid::made;
use example_types::valid::page::{Page, baskets, first_of, first_of_first};
use example_types::valid::panel::{Panel, Reading, gain, gain_on_panel, on_panel};
use example_types::valid::parcel::{Parcel, recipient};
use example_types::valid::seat::{Seat, price};
use example_types::valid::tariff::{Tariff, standard};
use garde::{Unvalidated, Valid, Validate};
use std::alloc::Global;
use std::collections::BTreeMap;
use std::process::Abort;

/// The value, which has no fault under the default context.
fn valid<T: Validate + Drop>(rt: &impl Abort, alloc: Global, value: T) -> Valid<T>
where
    T::Context: Default + Drop,
{
    Unvalidated::new(value).validate(alloc).or_end(rt)
}

/// Whether the value has a fault under the default context.
fn is_refused<T: Validate + Drop>(alloc: Global, value: T) -> bool
where
    T::Context: Default + Drop,
{
    Unvalidated::new(value).validate(alloc).is_err()
}

/// A basket of these articles.
fn basket(rt: &impl Abort, alloc: Global, names: &[&str]) -> Basket {
    let mut articles = Vec::new(alloc);
    for name in names {
        articles.push(text_of(rt, alloc, name)).or_end(rt);
    }
    Basket { articles }
}

/// The share of each guest in a valid bill.
fn share_of(rt: &impl Abort, alloc: Global, cents: u32, guests: u32) -> u32 {
    share(&valid(rt, alloc, Bill { cents, guests }))
}

/// The price of a valid seat in this row.
fn price_of(rt: &impl Abort, alloc: Global, row: usize) -> u32 {
    let prices = [900, 900, 800, 800, 700, 700, 600, 500];
    price(&valid(rt, alloc, Seat { row }), &prices)
}

/// A valid level as a byte.
fn byte_of(rt: &impl Abort, alloc: Global, percent: u32) -> u8 {
    byte(&valid(rt, alloc, Level { percent }))
}

/// Whether bills, seats and levels have the right share, price and byte, and wrong ones are rejected.
fn are_numbers_right(rt: &impl Abort, alloc: Global) -> bool {
    share_of(rt, alloc, 100, 3) == 33
        && share_of(rt, alloc, 7, 40) == 0
        && share_of(rt, alloc, u32::MAX, 1) == u32::MAX
        && is_refused(
            alloc,
            Bill {
                cents: 1,
                guests: 0,
            },
        )
        && is_refused(
            alloc,
            Bill {
                cents: 1,
                guests: 41,
            },
        )
        && price_of(rt, alloc, 0) == 900
        && price_of(rt, alloc, 6) == 600
        && price_of(rt, alloc, 7) == 500
        && is_refused(alloc, Seat { row: 8 })
        && byte_of(rt, alloc, 0) == 0
        && byte_of(rt, alloc, 150) == 150
        && byte_of(rt, alloc, 200) == 200
        && is_refused(alloc, Level { percent: 256 })
}

/// The prices of two kinds, one of which is express.
fn tariff(rt: &impl Abort, alloc: Global, kind: &str) -> Tariff {
    let (express, other) = (text_of(rt, alloc, "express"), text_of(rt, alloc, kind));
    let prices = BTreeMap::from_array(alloc, [(express, 300), (other, 120)]).or_end(rt);
    Tariff { prices }
}

/// Whether a valid parcel has its recipient, and one that has none is rejected.
fn are_parcels_right(rt: &impl Abort, alloc: Global, to: &str) -> bool {
    let sent = Parcel {
        sender: None,
        recipient: Some(text_of(rt, alloc, to)),
    };
    let lost = Parcel {
        sender: Some(text_of(rt, alloc, to)),
        recipient: None,
    };
    recipient(&valid(rt, alloc, sent)).as_str() == to && is_refused(alloc, lost)
}

/// Whether a valid basket has its first article and a valid tariff its price, and wrong ones are
/// rejected.
fn are_parts_there(rt: &impl Abort, alloc: Global, names: [&str; 2]) -> bool {
    first(&valid(rt, alloc, basket(rt, alloc, &names))).as_str() == names[0]
        && is_refused(alloc, basket(rt, alloc, &[]))
        && standard(&valid(rt, alloc, tariff(rt, alloc, "standard"))) == 120
        && is_refused(alloc, tariff(rt, alloc, "slow"))
}

/// The gain of a reading that keeps its panel, if the panel has its channel.
fn kept_gain(alloc: Global, channel: usize, panel: &Panel, gains: &[u32; 3]) -> Option<u32> {
    let kept = on_panel(alloc, Reading { channel, volts: 5 }, panel)?;
    if kept.context().last < 3 {
        Some(gain_on_panel(&kept, gains))
    } else {
        None
    }
}

/// Whether this is the gain of a channel on a panel of two, by either way.
fn has_gain(alloc: Global, channel: usize, wanted: Option<u32>) -> bool {
    let panel = Panel { last: 1 };
    let gains = [10, 20, 30];
    let reading = Reading { channel, volts: 5 };
    gain(alloc, &reading, &panel, &gains) == wanted
        && kept_gain(alloc, channel, &panel, &gains) == wanted
}

#[test]
fn the_gain_of_a_channel(rt: HostRuntime) {
    assert!(rt;
        has_gain(rt.alloc(), 0, Some(10))
            && has_gain(rt.alloc(), 1, Some(20))
            && has_gain(rt.alloc(), 2, None)
    );
}

/// The volts of a reading that a panel of eight keeps.
fn volts_of(alloc: Global, channel: usize) -> Option<u32> {
    let reading = Reading {
        channel,
        volts: 230,
    };
    match on_panel(alloc, reading, &Panel { last: 7 }) {
        Some(kept) => Some(kept.into_inner().volts),
        None => None,
    }
}

#[test]
fn a_value_that_keeps_its_context(rt: HostRuntime) {
    assert!(rt;
        volts_of(rt.alloc(), 0) == Some(230)
            && volts_of(rt.alloc(), 7) == Some(230)
            && volts_of(rt.alloc(), 8).is_none()
    );
}

/// A page of two baskets, of pears and plums, and of these.
fn page(rt: &impl Abort, alloc: Global, names: &[&str]) -> Page<Basket> {
    let first = basket(rt, alloc, &["pears", "plums"]);
    let entries = vec![in alloc; first, basket(rt, alloc, names)].or_end(rt);
    Page { entries }
}

/// Whether these are the first articles of the baskets of a page.
fn are_firsts(page: &Valid<Page<Basket>>, names: [&str; 2]) -> bool {
    page.entries.len() == 2
        && first_of(page, 0).as_str() == names[0]
        && first_of(page, 1).as_str() == names[1]
        && first_of_first(page).as_str() == names[0]
}

/// Whether these are the first articles of baskets.
fn are_firsts_of(baskets: &[Valid<Basket>], names: [&str; 2]) -> bool {
    match baskets {
        [one, other] => first(one).as_str() == names[0] && first(other).as_str() == names[1],
        _ => false,
    }
}

/// Whether the first articles of the baskets of a page, and of those that are taken out of it, are
/// pears and figs, and a page with a basket without articles is rejected.
fn are_pages_right(rt: &impl Abort, alloc: Global) -> bool {
    let page_of_two = valid(rt, alloc, page(rt, alloc, &["figs"]));
    are_firsts(&page_of_two, ["pears", "figs"])
        && are_firsts_of(&baskets(alloc, page_of_two).or_end(rt), ["pears", "figs"])
        && is_refused(alloc, page(rt, alloc, &[]))
}

#[test]
fn what_is_known_of_valid_values(rt: HostRuntime) {
    assert!(rt;
        are_numbers_right(&rt, rt.alloc())
            && are_parts_there(&rt, rt.alloc(), ["pears", "plums"])
            && are_parcels_right(&rt, rt.alloc(), "Ada")
            && are_pages_right(&rt, rt.alloc())
    );
}

/// Whether a page of a basket with this article is made, of which it is the first.
fn is_first_of_made(rt: &impl Abort, alloc: Global, name: &str) -> bool {
    let page = made::page(
        alloc,
        made::basket(alloc, text_of(rt, alloc, name)).or_end(rt),
    )
    .or_end(rt);
    first_of_first(&page).as_str() == name
}

/// The share of each guest in a bill of 80 cents that is made.
fn share_of_made(guests: u32) -> Option<u32> {
    match made::bill(80, guests) {
        Some(bill) => Some(share(&bill)),
        None => None,
    }
}

#[test]
fn values_that_are_made(rt: HostRuntime) {
    assert!(rt;
        share(&made::for_two(901)) == 450
            && share_of_made(0).is_none()
            && share_of_made(1) == Some(80)
            && share_of_made(40) == Some(2)
            && share_of_made(41).is_none()
            && is_first_of_made(&rt, rt.alloc(), "figs")
    );
}
