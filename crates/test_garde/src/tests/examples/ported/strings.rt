//! Types of texts.
use super::tells;
use crate::tests::examples::owned;
use crate::tests::text_of;
use example_ported::account::Account;
use example_ported::draft::Draft;
use example_ported::label::Label;
use example_ported::pair::Pair;
use example_ported::place::Place;
use std::alloc::Global;
use std::borrow::CowStr;
use std::process::Abort;

/// Whether this is reported for an account of these texts.
fn is_told_of_an_account(
    rt: &impl Abort,
    alloc: Global,
    [username, password, again, code]: [&str; 4],
    told: &str,
) -> bool {
    let account = Account {
        username: text_of(rt, alloc, username),
        password: text_of(rt, alloc, password),
        again: text_of(rt, alloc, again),
        code: text_of(rt, alloc, code),
        remember: false,
    };
    tells(rt, alloc, &account, &(), told)
}

/// Whether this is reported for a draft of this report and height.
fn is_told_of_a_draft(rt: &impl Abort, alloc: Global, from: &str, h: u8, told: &str) -> bool {
    let report = text_of(rt, alloc, from);
    let draft = Draft {
        report,
        trail: 200,
        h,
    };
    tells(rt, alloc, &draft, &(), told)
}

/// Whether this is reported for a pair, in which the second of both is this.
fn is_told_of_a_pair(
    rt: &impl Abort,
    alloc: Global,
    again: Option<&str>,
    pin_again: u32,
    told: &str,
) -> bool {
    let pair = Pair {
        mail: Some(text_of(rt, alloc, "a@b.org")),
        mail_again: owned(rt, alloc, again),
        pin: 1000,
        pin_again,
    };
    tells(rt, alloc, &pair, &(), told)
}

/// Whether this is reported for a label of five texts.
fn is_told_of_a_label(
    rt: &impl Abort,
    alloc: Global,
    [name, last, code, text, mark]: [&str; 5],
    told: &str,
) -> bool {
    let label = Label {
        name,
        also: &["b", last],
        code: Some(code),
        text: CowStr::Borrowed(text),
        mark,
    };
    tells(rt, alloc, &label, &(), told)
}

/// Whether the report of each account and of each draft is the right one.
fn are_accounts_and_drafts_told(rt: &impl Abort, alloc: Global) -> bool {
    let long = "not a very good password";
    is_told_of_an_account(rt, alloc, ["test", long, long, "a1"], "")
        && is_told_of_an_account(
            rt,
            alloc,
            ["é", "short", "other", "a_23456789"],
            "username: not ascii\nusername: length is lower than 3\npassword: length is lower than 15\nagain: does not match password field\ncode: not alphanumeric\ncode: length is greater than 8\n",
        )
        && is_told_of_a_draft(rt, alloc, "a", 9, "")
        && is_told_of_a_draft(
            rt,
            alloc,
            "",
            10,
            "report: length is lower than 1\nh: greater than 9\n",
        )
}

/// Whether the report of each label and of each pair is the right one.
fn are_labels_and_pairs_told(rt: &impl Abort, alloc: Global) -> bool {
    is_told_of_a_label(rt, alloc, ["name", "b1", "a-b", "text", "mark"], "")
        && is_told_of_a_label(
            rt,
            alloc,
            ["é", "cde", "x", "_", "marks"],
            "name: not ascii\nalso[1]: value does not begin with \"b\"\nalso[1]: length is greater than 2\ncode: does not contain \"-\"\ncode: length is lower than 2\ntext: not alphanumeric\nmark: not short\n",
        )
        && is_told_of_a_pair(rt, alloc, Some("a@b.org"), 1000, "")
        && is_told_of_a_pair(
            rt,
            alloc,
            None,
            1001,
            "mail_again: does not match mail field\npin_again: does not match pin field\n",
        )
}

/// Places of these texts, and what is reported for each.
static PLACES: [([&str; 9], &str); 2] = [
    (
        [
            "a@b.org",
            "t-abc",
            "::1",
            "1.2.3.4",
            "1::",
            "https://a.org/",
            "e\u{301}",
            "😂",
            "abéé",
        ],
        "",
    ),
    (
        [
            "mail", "x", "host", "::1", "1.2.3.4", "abc", "", "a😂", "abcde",
        ],
        "mail: does not contain \"@\"\nmail: does not end with \".org\"\ntag: value does not begin with \"t-\"\ntag: length is lower than 5\nhost: not a valid IP address\nold: not a valid IPv4 address\nnew: not a valid IPv6 address\nsite: not a valid url: relative URL without a base\nsign: length is lower than 1\nshort: length is greater than 2\ntitle: length is greater than 4\n",
    ),
];

/// Whether this is reported for a place of these texts.
fn is_told_of_a_place(rt: &impl Abort, alloc: Global, from: &[&str; 9], told: &str) -> bool {
    let place = Place {
        mail: text_of(rt, alloc, from[0]),
        tag: text_of(rt, alloc, from[1]),
        host: text_of(rt, alloc, from[2]),
        old: text_of(rt, alloc, from[3]),
        new: text_of(rt, alloc, from[4]),
        site: text_of(rt, alloc, from[5]),
        sign: text_of(rt, alloc, from[6]),
        short: text_of(rt, alloc, from[7]),
        title: text_of(rt, alloc, from[8]),
    };
    tells(rt, alloc, &place, &(), told)
}

#[test]
fn types_of_texts(rt: HostRuntime) {
    assert!(rt;
        are_accounts_and_drafts_told(&rt, rt.alloc())
            && are_labels_and_pairs_told(&rt, rt.alloc())
            && is_told_of_a_place(&rt, rt.alloc(), &PLACES[0].0, PLACES[0].1)
            && is_told_of_a_place(&rt, rt.alloc(), &PLACES[1].0, PLACES[1].1)
    );
}
