//! The whole reports of the guide's types.
use super::{is_told, owned};
use crate::tests::{OrEnd, text_of};
use example_types::contact::{Contact, Link};
use example_types::order::Order;
use example_types::payment::{CardText, Payment, PhoneText};
use example_types::profile::Profile;
use example_types::signup::Signup;
use example_types::stay::Stay;
use example_types::stock::Stock;
use example_types::tag::Tag;
use std::alloc::Global;
use std::collections::{BTreeMap, BTreeSet};
use std::process::Abort;

/// A map of these entries.
fn map<K: Ord + Drop, V: Drop, const N: usize>(
    rt: &impl Abort,
    alloc: Global,
    entries: [(K, V); N],
) -> BTreeMap<K, V> {
    BTreeMap::from_array(alloc, entries).or_end(rt)
}

/// A stock of two articles, two shelves, a floor below the street and a mark.
fn stock(rt: &impl Abort, alloc: Global, pears: u32, [shelf, floor, mark]: [&str; 3]) -> Stock {
    let (apples, all) = (text_of(rt, alloc, "apples"), text_of(rt, alloc, "pears"));
    let (left, right) = (text_of(rt, alloc, "left"), text_of(rt, alloc, shelf));
    Stock {
        pieces: map(rt, alloc, [(apples, 1), (all, pears)]),
        shelves: map(rt, alloc, [(7, left), (4_000_000_000, right)]),
        floors: map(rt, alloc, [(-1, text_of(rt, alloc, floor))]),
        marks: BTreeSet::from_array(alloc, [text_of(rt, alloc, mark)]).or_end(rt),
    }
}

/// Whether this is reported for a stock.
fn is_told_of_a_stock(
    rt: &impl Abort,
    alloc: Global,
    pears: u32,
    texts: [&str; 3],
    told: &str,
) -> bool {
    is_told(rt, alloc, &stock(rt, alloc, pears, texts), told)
}

#[test]
fn keys_that_are_texts_and_numbers(rt: HostRuntime) {
    let good = ["right", "cellar", "12345678"];
    let bad = ["é", "under the street, deep", "123456789"];
    let text =
        "pieces.pears: greater than 999\nshelves[4000000000]: not ascii\nfloors[-1]: length is greater than 20\nmarks[0]: length is greater than 8\n";
    assert!(rt;
        is_told_of_a_stock(&rt, rt.alloc(), 999, good, "")
            && is_told_of_a_stock(&rt, rt.alloc(), 1000, bad, text)
    );
}

/// The name, the motto and the page of a profile, and its age.
type Given = (
    Option<&'static str>,
    Option<&'static str>,
    Option<&'static str>,
    Option<u8>,
);

/// Profiles, and what is reported for each.
static PROFILES: [(Given, &str); 3] = [
    (
        (Some("abc"), Some("a"), Some("http://example.org"), Some(18)),
        "",
    ),
    ((None, None, None, None), "name: not set\n"),
    (
        (Some("ab"), Some("é"), Some("example"), Some(17)),
        "name: length is lower than 3\nage: lower than 18\nmotto: not ascii\npage: not a valid url: relative URL without a base\n",
    ),
];

/// Whether this is reported for a profile.
fn is_told_of_a_profile(
    rt: &impl Abort,
    alloc: Global,
    (name, motto, page, age): Given,
    text: &str,
) -> bool {
    let profile = Profile {
        name: owned(rt, alloc, name),
        age,
        motto: owned(rt, alloc, motto),
        page: owned(rt, alloc, page),
    };
    is_told(rt, alloc, &profile, text)
}

#[test]
fn options_that_are_asked_as_a_whole(rt: HostRuntime) {
    for (given, text) in &PROFILES {
        assert!(rt;
            is_told_of_a_profile(&rt, rt.alloc(), *given, text),
            "{text}"
        );
    }
}

/// Who signs up, with five faults.
pub(super) fn signup(rt: &impl Abort, alloc: Global) -> Signup {
    Signup {
        name: text_of(rt, alloc, "é"),
        password: text_of(rt, alloc, "analytical engine"),
        again: text_of(rt, alloc, "analytical"),
        age: None,
        host: text_of(rt, alloc, "example.com"),
        terms: false,
    }
}

/// An order whose texts are empty, all but its customer.
fn order(rt: &impl Abort, alloc: Global) -> Order {
    Order {
        number: 0,
        customer: text_of(rt, alloc, "é"),
        street: String::new(alloc),
        town: String::new(alloc),
        lines: vec![in alloc; String::new(alloc)].or_end(rt),
        note: Some(String::new(alloc)),
        parcels: 21,
    }
}

/// Numbers of a card and of a phone.
fn payment(rt: &impl Abort, alloc: Global, card: &str, phone: &str) -> Payment {
    Payment {
        card: CardText(text_of(rt, alloc, card)),
        phone: PhoneText(text_of(rt, alloc, phone)),
    }
}

/// Whether the report is the right one of stays from one day to another, and of a tag whose texts are
/// borrowed.
fn are_stays_and_tags_told(rt: &impl Abort, alloc: Global, tag: &Tag<'_>) -> bool {
    is_told(
        rt,
        alloc,
        &Stay {
            arrival: 8,
            departure: 9,
        },
        "",
    ) && is_told(
        rt,
        alloc,
        &Stay {
            arrival: 8,
            departure: 8,
        },
        "departure: leave after you arrive\n",
    ) && is_told(
        rt,
        alloc,
        &Stay {
            arrival: 7,
            departure: 6,
        },
        "arrival: closed on Mondays\ndeparture: leave after you arrive\n",
    ) && is_told(
        rt,
        alloc,
        tag,
        "name: length is greater than 9\nalso[1]: not ascii\n",
    )
}

#[test]
fn a_field_compared_with_another(rt: HostRuntime) {
    let tag = Tag {
        name: "0123456789",
        also: &["b", "é"],
    };
    assert!(rt; are_stays_and_tags_told(&rt, rt.alloc(), &tag));
}

#[test]
fn messages_of_ones_own(rt: HostRuntime) {
    let signup_text =
        "name: choose a longer name\nagain: does not match password field\nage: not set\nhost: does not end with \".org\"\nterms: accept the terms\n";
    let order_text =
        "number: lower than 1\ncustomer: not ascii\ncustomer: length is lower than 3\nstreet: length is lower than 1\ntown: length is lower than 1\nlines[0]: length is lower than 1\nnote: length is lower than 1\nparcels: greater than 20\n";
    let payment_text =
        "card: not a valid credit card number: invalid length\nphone: not a valid phone number: the number is too long\n";
    assert!(rt;
        is_told(&rt, rt.alloc(), &signup(&rt, rt.alloc()), signup_text)
            && is_told(&rt, rt.alloc(), &order(&rt, rt.alloc()), order_text)
            && is_told(
                &rt,
                rt.alloc(),
                &payment(&rt, rt.alloc(), "4111", "+420 123 456 789"),
                payment_text,
            )
    );
}

/// The kind of a contact without a business, an email twice and a phone, and the title of its last
/// link.
type Reached = (
    &'static str,
    Option<&'static str>,
    Option<&'static str>,
    Option<&'static str>,
    &'static str,
);

/// Contacts, and what is reported for each.
static CONTACTS: [(Reached, &str); 3] = [
    (("person", Some("a@b.c"), Some("a@b.c"), None, "c"), ""),
    (("person", None, None, Some("1"), "c"), ""),
    (
        ("business", None, Some("a@b.c"), None, "a"),
        "business: not set\nemail: give an email or a phone\nagain: does not match email field\nlinks[2]: there is a link of this title\n",
    ),
];

/// A link of this title.
fn link(rt: &impl Abort, alloc: Global, title: &str) -> Link {
    Link {
        title: text_of(rt, alloc, title),
        address: text_of(rt, alloc, "https://example.org/"),
    }
}

/// Links of the titles "a" and "b" and of this one.
fn links(rt: &impl Abort, alloc: Global, last: &str) -> Vec<Link> {
    let links = vec![in alloc;
        link(rt, alloc, "a"),
        link(rt, alloc, "b"),
        link(rt, alloc, last),
    ];
    links.or_end(rt)
}

/// Whether this is reported for a contact.
fn is_told_of_a_contact(
    rt: &impl Abort,
    alloc: Global,
    (kind, email, again, phone, last): Reached,
    told: &str,
) -> bool {
    let contact = Contact {
        kind: text_of(rt, alloc, kind),
        business: None,
        email: owned(rt, alloc, email),
        again: owned(rt, alloc, again),
        phone: owned(rt, alloc, phone),
        links: links(rt, alloc, last),
    };
    is_told(rt, alloc, &contact, told)
}

#[test]
fn rules_over_several_fields(rt: HostRuntime) {
    for (contact, told) in &CONTACTS {
        assert!(rt;
            is_told_of_a_contact(&rt, rt.alloc(), *contact, told),
            "{told}"
        );
    }
}
