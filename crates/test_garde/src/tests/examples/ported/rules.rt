//! Types with conditions and rules of their own.
use super::tells;
use crate::tests::examples::owned;
use crate::tests::{OrEnd, text_of, texts_of};
use example_ported::coupon::{Coupon, Discount, Season, Tag};
use example_ported::page::{Page, Press};
use std::alloc::Global;
use std::process::Abort;

/// A page and what it is asked: whether it is plain, short and strictly read, and its number.
struct Row {
    plain: bool,
    short: bool,
    strict: bool,
    number: u16,
    content: Option<&'static str>,
    notes: &'static [&'static str],
    texts: [&'static str; 4],
    told: &'static str,
}

/// Pages, and what is reported for each.
static PAGES: [Row; 4] = [
    Row {
        plain: true,
        short: false,
        strict: true,
        number: 10,
        content: Some("any content"),
        notes: &["a note"],
        texts: ["p-1", "Ada", "here", "a"],
        told: "",
    },
    Row {
        plain: true,
        short: false,
        strict: true,
        number: 100,
        content: Some("é"),
        notes: &[],
        texts: ["volumes", "é", "", "é"],
        told: "content: not ascii\nnotes: length is lower than 1\ntitle: value does not begin with \"p-\"\ntitle: length is greater than 6\nauthor: not ascii\nsource: length is lower than 1\nvolume: not ascii\nnumber: greater than 99\n",
    },
    Row {
        plain: false,
        short: true,
        strict: false,
        number: 9,
        content: Some("é"),
        notes: &["notes"],
        texts: ["volumes", "é", "a", ""],
        told: "content: length is lower than 10\nnotes[0]: length is greater than 4\nauthor: not ascii\nvolume: length is lower than 1\n",
    },
    Row {
        plain: false,
        short: false,
        strict: false,
        number: 9,
        content: None,
        notes: &[],
        texts: ["volumes", "é", "", "é"],
        told: "content: not set\n",
    },
];

/// Whether the report of a page is the right one.
fn is_told_of_a_page(rt: &impl Abort, alloc: Global, row: &Row) -> bool {
    let page = Page {
        plain: row.plain,
        short: row.short,
        content: owned(rt, alloc, row.content),
        notes: texts_of(rt, alloc, row.notes),
        title: text_of(rt, alloc, row.texts[0]),
        author: text_of(rt, alloc, row.texts[1]),
        source: text_of(rt, alloc, row.texts[2]),
        volume: text_of(rt, alloc, row.texts[3]),
        number: row.number,
    };
    let press = Press { strict: row.strict };
    tells(rt, alloc, &page, &press, row.told)
}

#[test]
fn rules_under_conditions(rt: HostRuntime) {
    for row in &PAGES {
        assert!(rt; is_told_of_a_page(&rt, rt.alloc(), row), "{}", row.told);
    }
}

/// A coupon of this number and tag.
fn coupon(rt: &impl Abort, alloc: Global, number: u32, tag: &str, terms: bool) -> Coupon {
    let tag = Tag(text_of(rt, alloc, tag));
    Coupon { number, tag, terms }
}

/// Whether this is reported for a discount in a season of at most 20 percent.
fn is_told_of_a_discount(rt: &impl Abort, alloc: Global, percent: u8, told: &str) -> bool {
    let further = [percent].to_vec(alloc).or_end(rt);
    tells(
        rt,
        alloc,
        &Discount { percent, further },
        &Season { most: 20 },
        told,
    )
}

#[test]
fn rules_of_ones_own(rt: HostRuntime) {
    let bad =
        "number: not even\ntag: value does not begin with \"t-\"\ntag: length is greater than 6\nterms: accept the terms\n";
    assert!(rt;
        tells(
            &rt,
            rt.alloc(),
            &coupon(&rt, rt.alloc(), 2, "t-1234", true),
            &(),
            ""
        ) && tells(
            &rt,
            rt.alloc(),
            &coupon(&rt, rt.alloc(), 3, "1234567", false),
            &(),
            bad
        ) && is_told_of_a_discount(&rt, rt.alloc(), 20, "")
            && is_told_of_a_discount(
                &rt,
                rt.alloc(),
                21,
                "percent: not in season\nfurther[0]: not in season\n",
            )
    );
}
