//! Types of collections and of options.
use super::tells;
use crate::tests::examples::owned;
use crate::tests::{OrEnd, text_of, texts_of};
use example_ported::depot::{Depot, Door};
use example_ported::guest::Guest;
use example_ported::shop::Shop;
use std::alloc::Global;
use std::collections::{BTreeMap, BTreeSet, HashMap, HashSet, LinkedList, VecDeque};
use std::process::Abort;
use std::rc::Rc;

/// A shop of these names, pieces and rows, with a text on shelf 7 and a mark.
fn shop<const N: usize>(
    rt: &impl Abort,
    alloc: Global,
    names: &[&str],
    pieces: [(String, u32); N],
    [shelf, mark]: [&str; 2],
    rows: Vec<Vec<String>>,
) -> Shop {
    Shop {
        names: texts_of(rt, alloc, names),
        pieces: BTreeMap::from_array(alloc, pieces).or_end(rt),
        shelves: BTreeMap::from_array(alloc, [(7, text_of(rt, alloc, shelf))]).or_end(rt),
        marks: BTreeSet::from_array(alloc, [text_of(rt, alloc, mark)]).or_end(rt),
        rows,
    }
}

/// A shop without a fault.
fn good_shop(rt: &impl Abort, alloc: Global) -> Shop {
    let pieces = [(text_of(rt, alloc, "a"), 1), (text_of(rt, alloc, "b"), 999)];
    let rows = vec![in alloc; texts_of(rt, alloc, &["a", "b"])].or_end(rt);
    shop(
        rt,
        alloc,
        &["ab", "abc", "abcd"],
        pieces,
        ["éa1", "12345678"],
        rows,
    )
}

/// A shop with faults in each collection.
fn bad_shop(rt: &impl Abort, alloc: Global) -> Shop {
    let pieces = [
        (text_of(rt, alloc, "a"), 1),
        (text_of(rt, alloc, "b"), 0),
        (text_of(rt, alloc, "c"), 1000),
    ];
    let rows = vec![in alloc; Vec::new(alloc), texts_of(rt, alloc, &["é", "ab"])].or_end(rt);
    shop(
        rt,
        alloc,
        &["é", "b", "abc", "abcd"],
        pieces,
        ["_", "123456789"],
        rows,
    )
}

const BAD_SHOP: &str =
    "names: length is greater than 3\nnames[0]: not ascii\nnames[1]: length is lower than 2\npieces: length is greater than 2\npieces.b: lower than 1\npieces.c: greater than 999\nshelves[7]: not alphanumeric\nmarks[0]: length is greater than 8\nrows[0]: length is lower than 1\nrows[1][0]: not ascii\nrows[1][0]: length is greater than 1\nrows[1][1]: length is greater than 1\n";

#[test]
fn each_collection_of_a_shop(rt: HostRuntime) {
    assert!(rt;
        tells(&rt, rt.alloc(), &good_shop(&rt, rt.alloc()), &(), "")
            && tells(&rt, rt.alloc(), &bad_shop(&rt, rt.alloc()), &(), BAD_SHOP)
    );
}

/// The age of a guest, its nickname, its site and its motto, its seats, and what is reported.
type Told = (
    Option<u8>,
    Option<&'static str>,
    Option<&'static str>,
    Option<&'static str>,
    &'static [Option<u8>],
    &'static str,
);

static GUESTS: [Told; 3] = [
    (
        Some(18),
        Some("ab"),
        Some("https://a.org"),
        Some("c"),
        &[None, Some(9)],
        "",
    ),
    (
        Some(121),
        Some("é"),
        Some("abc"),
        Some("é"),
        &[None, Some(10), Some(11)],
        "age: greater than 120\nnickname: not ascii\nsite: not a valid url: relative URL without a base\nmotto: not ascii\nseats: length is greater than 2\nseats[1]: greater than 9\nseats[2]: greater than 9\n",
    ),
    (
        None,
        None,
        None,
        None,
        &[],
        "age: not set\nnickname: not set\n",
    ),
];

/// Whether this is reported for a guest.
fn is_told_of_a_guest(
    rt: &impl Abort,
    alloc: Global,
    age: Option<u8>,
    nickname: Option<&str>,
    site: Option<&str>,
    motto: Option<&str>,
    seats: &[Option<u8>],
    told: &str,
) -> bool {
    let guest = Guest {
        age,
        nickname: owned(rt, alloc, nickname),
        site: owned(rt, alloc, site),
        motto: owned(rt, alloc, motto),
        seats: Some(seats.to_vec(alloc).or_end(rt)),
    };
    tells(rt, alloc, &guest, &(), told)
}

#[test]
fn options_with_and_without_a_value(rt: HostRuntime) {
    for (age, nickname, site, motto, seats, told) in &GUESTS {
        assert!(rt;
            is_told_of_a_guest(&rt, rt.alloc(), *age, *nickname, *site, *motto, seats, told),
            "{told}"
        );
    }
}

/// A depot of these digits, the first of which is counted besides, of this text and of doors of this
/// width.
fn depot(rt: &impl Abort, alloc: Global, digits: &[u8], first: u8, name: &str, width: u8) -> Depot {
    let counts = [(text_of(rt, alloc, "a"), first as u32)];
    let doors = [(text_of(rt, alloc, "a"), Door { width })];
    Depot {
        counts: HashMap::from_array(alloc, counts).or_end(rt),
        names: HashMap::from_array(alloc, [(7, text_of(rt, alloc, name))]).or_end(rt),
        keys: HashSet::from_array(alloc, [text_of(rt, alloc, name)]).or_end(rt),
        queue: VecDeque::from(digits.to_vec(alloc).or_end(rt)),
        chain: LinkedList::from_iter(alloc, digits.iter().copied()).or_end(rt),
        digits: [0, 9, first],
        gate: Rc::new(alloc, Door { width }).or_end(rt),
        doors: BTreeMap::from_array(alloc, doors).or_end(rt),
    }
}

const BAD_DEPOT: &str =
    "counts.a: greater than 9\nnames[7]: not ascii\nkeys[0]: length is greater than 4\nqueue: length is greater than 1\nqueue[0]: greater than 9\nqueue[1]: greater than 9\nchain: length is greater than 1\nchain[0]: greater than 9\nchain[1]: greater than 9\ndigits[2]: greater than 9\ngate.width: greater than 15\ndoors.a.width: greater than 15\n";

#[test]
fn each_collection_of_a_depot(rt: HostRuntime) {
    assert!(rt;
        tells(
            &rt,
            rt.alloc(),
            &depot(&rt, rt.alloc(), &[9], 9, "abcd", 15),
            &(),
            ""
        ) && tells(
            &rt,
            rt.alloc(),
            &depot(&rt, rt.alloc(), &[10, 11], 10, "é123", 16),
            &(),
            BAD_DEPOT,
        )
    );
}
