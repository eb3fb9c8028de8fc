//! Types that are read from JSON by the forms that the port writes.
use example_ported::basket::{read_basket, read_marks};
use example_ported::bill::read_bill;
use example_ported::folder::read_disk;
use example_ported::hook::Subscription;
use example_ported::openapi::OpenApi;
use example_ported::parcel::read_parcel;
use example_ported::stay::{Season, read_stay};
use garde::DefaultI18n;
use garde_schema::{ReadBody, Scratch};
use std::alloc::{AllocError, Global};
use std::fmt::{Debug, Display};
use std::process::Abort;

/// A type that is read.
#[derive(Clone, Copy)]
enum Of {
    Basket,
    Bill,
    Disk,
    Hook,
    Marks,
    OpenApi,
    Parcel,
    Stay,
}

// Bodies of each type, and what each reads as.
const DISKS: &[(&str, &str)] = &[
    (
        "{\"label\":\"c\",\"top\":[{\"name\":\"a\",\"folders\":[{\"name\":\"b\",\"size\":9,\"folders\":[],\"note\":\"abc\"}],\"note\":\"abcd\"}]}",
        "Disk { label: TextRef(\"c\"), top: Items([Folder { name: TextRef(\"a\"), size: None, folders: Items([Folder { name: TextRef(\"b\"), size: Some(9), folders: Items([]), note: TextRef(\"abc\") }]), note: TextRef(\"abcd\") }]) }",
    ),
    (
        "{\"label\":1,\"top\":[{\"name\":\"\",\"size\":1001,\"folders\":[{\"name\":\"b\",\"size\":9,\"folders\":[],\"note\":\"abcd\",\"x\":0}],\"note\":\"abcd\"}]}",
        "label: not a text\ntop[0].name: length is lower than 1\ntop[0].size: greater than 1000\ntop[0].note: length is greater than 3\ntop[0].folders[0].note: length is greater than 3\ntop[0].folders[0].x: not known here\n",
    ),
];

const BASKETS: &[(&str, &str)] = &[
    (
        "{\"customer\":\"Ann\",\"payment\":\"card\",\"billTo\":\"12 Street\",\"entries\":[{\"code\":\"P1\",\"pieces\":6,\"gifts\":6}],\"again\":\"Ann\"}",
        "Valid(Basket { customer: TextRef(\"Ann\"), payment: Card, bill_to: Some(TextRef(\"12 Street\")), entries: Items([Entry { code: TextRef(\"P1\"), gifts: 6, pieces: 6 }]), again: TextRef(\"Ann\") })",
    ),
    (
        "{\"customer\":\"Ann\",\"payment\":\"bill\",\"entries\":[{\"code\":\"Q\",\"pieces\":121,\"gifts\":122},{\"code\":\"P\",\"pieces\":7,\"gifts\":8}],\"again\":\"Bob\"}",
        "billTo: not set\nentries[0].code: value does not begin with \"P\"\nentries[0].pieces: greater than 120\nentries[0].pieces: not a multiple of 6\nentries[0].gifts: greater than 121\nentries[1].pieces: not a multiple of 6\nentries[1].gifts: greater than 7\nagain: does not match customer field\n",
    ),
    (
        "{\"customer\":\"Ann\",\"payment\":\"cash\",\"billTo\":null,\"entries\":[{\"code\":\"P\",\"pieces\":6,\"gifts\":0},{\"code\":\"P\",\"pieces\":6,\"gifts\":0},{\"code\":\"P\",\"pieces\":6,\"gifts\":0},{\"code\":\"P\",\"pieces\":6,\"gifts\":0}],\"again\":1}",
        "entries: length is greater than 3\nagain: not a text\n",
    ),
];

const MARKS: &[(&str, &str)] = &[
    (
        "{\"tags\":[\"a\",\"b\"],\"seats\":[1,2],\"labels\":{\"to\":\"x\"},\"note\":\"none\",\"copies\":0,\"agent\":\"Eve\"}",
        "Valid(Marks { tags: Items([TextRef(\"a\"), TextRef(\"b\")]), seats: Items([1, 2]), phone: None, labels: Items([(TextRef(\"to\"), TextRef(\"x\"))]), note: TextRef(\"none\"), copies: 0, agent: Some(TextRef(\"Eve\")) })",
    ),
    (
        "{\"tags\":[\"a\",\"rush\",\"a\",\"b\",\"c\"],\"seats\":[1,1],\"labels\":{\"\u{e9}\":\"x\",\"name\":\"-\"},\"note\":\"@\",\"copies\":0}",
        "tags[2]: stands before\ntags: no room\nseats[1]: comes twice\nlabels.name: not alphanumeric\nlabels.\u{e9}: not ascii\nphone: not set\nnote: length is lower than 3\ncopies: lower than 1\nagent: no name\n",
    ),
    (
        "{\"tags\":[\"rush\"],\"seats\":[7],\"labels\":{\"\u{e9}\":\"x\"},\"note\":\"@\",\"copies\":0,\"agent\":\"\"}",
        "labels.\u{e9}: not ascii\nnote: length is lower than 3\ncopies: lower than 1\n",
    ),
];

const PARCELS: &[(&str, &str)] = &[
    (
        "{\"number\":1,\"sentTo\":\"Ann\",\"phone\":\"+1\",\"grams\":30000,\"speed\":\"by_ship\",\"things\":[{\"name\":\"cup\"},{\"name\":\"lamp\",\"pieces\":99,\"fragile\":true}],\"marks\":[\"a1\"],\"labels\":{\"to\":\"x\"}}",
        "Valid(Parcel { number: 1, sent_to: TextRef(\"Ann\"), phone: Some(TextRef(\"+1\")), weight: Some(30000), speed: Slow, things: Items([Thing { name: TextRef(\"cup\"), pieces: 1, fragile: false }, Thing { name: TextRef(\"lamp\"), pieces: 99, fragile: true }]), marks: Items([TextRef(\"a1\")]), labels: Items([(TextRef(\"to\"), TextRef(\"x\"))]) })",
    ),
    (
        "{\"number\":0,\"sentTo\":\"\",\"phone\":\"1\",\"grams\":null,\"speed\":\"fast\",\"things\":[],\"marks\":[\"-\"],\"labels\":[],\"note\":1}",
        "number: lower than 1\nsentTo: length is lower than 1\nphone: value does not begin with \"+\"\ngrams: not set\nspeed: not one of the known values\nthings: length is lower than 1\nmarks[0]: not alphanumeric\nlabels: not an object\nnote: not known here\n",
    ),
    (
        "{\"number\":\"1\",\"things\":[{\"name\":\"\u{e9}\",\"pieces\":0},{\"pieces\":100},1]}",
        "number: not a whole number\nsentTo: missing\ngrams: not set\nthings[0].name: not ascii\nthings[0].pieces: lower than 1\nthings[1].name: missing\nthings[1].pieces: greater than 99\nthings[2]: not an object\nmarks: missing\nlabels: missing\n",
    ),
    ("{\"number\":1", "not JSON at line 1 column 12"),
];

const BILLS: &[(&str, &str)] = &[
    (
        "{\"number\":\"B1\",\"cents\":1,\"payment\":{\"kind\":\"card\",\"cardNo\":\"1234567890123456\",\"year\":2030},\"origin\":{\"web-site\":\"https://a.org/\"}}",
        "Valid(Bill { number: Number(TextRef(\"B1\")), cents: 1, payment: Card { card_no: TextRef(\"1234567890123456\"), year: 2030 }, origin: Some(WebSite(TextRef(\"https://a.org/\"))) })",
    ),
    (
        "{\"origin\":{\"shop\":{\"till\":99}},\"payment\":{\"holder\":\"a\",\"kind\":\"account\"},\"cents\":2,\"number\":\"B\"}",
        "Valid(Bill { number: Number(TextRef(\"B\")), cents: 2, payment: Account { holder: Some(TextRef(\"a\")) }, origin: Some(Shop { till: 99 }) })",
    ),
    (
        "{\"number\":\"B\",\"cents\":2,\"payment\":{\"kind\":\"cash\"}}",
        "Valid(Bill { number: Number(TextRef(\"B\")), cents: 2, payment: Cash, origin: None })",
    ),
    (
        "{\"number\":\"C\",\"cents\":0,\"payment\":{\"kind\":\"card\",\"cardNo\":\"\u{e9}\",\"year\":2041},\"origin\":{\"shop\":{\"till\":100}}}",
        "number: value does not begin with \"B\"\ncents: lower than 1\npayment.cardNo: not ascii\npayment.cardNo: length is lower than 16\npayment.year: greater than 2040\norigin.shop.till: greater than 99\n",
    ),
    (
        "{\"number\":1,\"cents\":-1,\"payment\":{\"kind\":\"check\"},\"origin\":{\"web-site\":\"a\",\"shop\":{}}}",
        "number: not a text\ncents: lower than 1\npayment.kind: not one of the known values\norigin: not an object with one member\n",
    ),
];

const STAYS: &[(&str, &str)] = &[
    (
        "{\"from\":1,\"until\":2,\"guests\":[\"Ann\",\"Bob\"],\"beds\":[1,4],\"note\":\"\",\"percent\":20}",
        "Valid(Stay { from: 1, until: 2, guests: Items([TextRef(\"Ann\"), TextRef(\"Bob\")]), beds: Items([1, 4]), note: TextRef(\"\"), percent: 20 })",
    ),
    (
        "{\"from\":7,\"until\":7,\"guests\":[\"a\",\"b\",\"c\",\"d\",\"e\"],\"beds\":[5],\"note\":\"\",\"percent\":21}",
        "from: closed on Mondays\nuntil: leave after you arrive\nguests: no room\nbeds[0]: no such room\nnote: say who shares\npercent: not in season\n",
    ),
    (
        "{\"from\":0,\"until\":1,\"guests\":[],\"beds\":[0],\"note\":\"b\",\"percent\":0}",
        "from: closed on Mondays\nbeds[0]: no such room\nguests: more beds than guests\n",
    ),
];

const HOOKS: &[(&str, &str)] = &[
    (
        "{\"name\":\"Ann\",\"callback\":\"https://a.org/\",\"events\":[\"payment\",\"refund\"],\"secret\":\"s\",\"active\":true}",
        "Subscription { name: TextRef(\"Ann\"), callback: TextRef(\"https://a.org/\"), events: Items([Payment, Refund]), secret: Some(TextRef(\"s\")), retries: 3, active: true }",
    ),
    (
        "{\"name\":\"\",\"callback\":\"http://a.org/\",\"events\":[\"payment\",\"payment\"],\"retries\":11,\"x\":0}",
        "name: length is lower than 1\ncallback: value does not begin with \"https://\"\nevents[1]: stands before\nsecret: a secret is needed for payments\nretries: greater than 10\nx: not known here\n",
    ),
];

const OPEN_APIS: &[(&str, &str)] = &[
    (
        "{\"openapi\":\"3.1.0\",\"info\":{\"title\":\"Shop\",\"license\":{\"name\":\"MIT\",\"identifier\":\"MIT\"},\"version\":\"1\"}}",
        "OpenApi { openapi: TextRef(\"3.1.0\"), info: Info { title: TextRef(\"Shop\"), summary: None, description: None, terms_of_service: None, contact: None, license: Some(License { name: TextRef(\"MIT\"), identifier: Some(TextRef(\"MIT\")), url: None }), version: TextRef(\"1\") } }",
    ),
    (
        "{\"openapi\":\"2.0\",\"info\":{\"title\":\"\",\"contact\":{\"name\":\"\",\"email\":\"a\"},\"license\":{\"name\":\"MIT\",\"identifier\":\"MIT\",\"url\":\"https://a.org/\"},\"version\":1}}",
        "openapi: value does not begin with \"3.\"\ninfo.title: length is lower than 1\ninfo.contact.name: length is lower than 1\ninfo.contact.email: does not contain \"@\"\ninfo.license.identifier: either an identifier or a URL\ninfo.version: not a text\n",
    ),
];

/// What was read: the value, or what is wrong.
fn told_of<T: Debug + Drop, E: Display + Drop>(
    alloc: Global,
    read: Result<T, E>,
) -> Result<String, AllocError> {
    match read {
        Ok(value) => format!(in alloc; "{value:?}"),
        Err(error) => error.to_string(alloc),
    }
}

/// What was read of a basket.
fn basket(alloc: Global, body: &[u8]) -> Result<String, AllocError> {
    let mut scratch = Scratch::new(alloc);
    told_of(alloc, read_basket(alloc, body, &mut scratch, &DefaultI18n))
}

/// What was read of a bill.
fn bill(alloc: Global, body: &[u8]) -> Result<String, AllocError> {
    let mut scratch = Scratch::new(alloc);
    told_of(alloc, read_bill(alloc, body, &mut scratch, &DefaultI18n))
}

/// What was read of a disk.
fn disk(alloc: Global, body: &[u8]) -> Result<String, AllocError> {
    let mut scratch = Scratch::new(alloc);
    told_of(alloc, read_disk(alloc, body, &mut scratch, &DefaultI18n))
}

/// What was read of a subscription by a webhook.
fn hook(alloc: Global, body: &[u8]) -> Result<String, AllocError> {
    let mut scratch = Scratch::new(alloc);
    let read = Subscription::read_body(alloc, body, &mut scratch, usize::MAX, &DefaultI18n);
    told_of(alloc, read)
}

/// What was read of marks.
fn marks(alloc: Global, body: &[u8]) -> Result<String, AllocError> {
    let mut scratch = Scratch::new(alloc);
    told_of(alloc, read_marks(alloc, body, &mut scratch, &DefaultI18n))
}

/// What was read of the beginning of an OpenAPI document.
fn open_api(alloc: Global, body: &[u8]) -> Result<String, AllocError> {
    let mut scratch = Scratch::new(alloc);
    let read = OpenApi::read_body(alloc, body, &mut scratch, usize::MAX, &DefaultI18n);
    told_of(alloc, read)
}

/// What was read of a parcel.
fn parcel(alloc: Global, body: &[u8]) -> Result<String, AllocError> {
    let mut scratch = Scratch::new(alloc);
    told_of(alloc, read_parcel(alloc, body, &mut scratch, &DefaultI18n))
}

/// What was read of a stay, in a season of at most 20 percent.
fn stay(alloc: Global, body: &[u8]) -> Result<String, AllocError> {
    let mut scratch = Scratch::new(alloc);
    let season = Season { most: 20 };
    told_of(
        alloc,
        read_stay(alloc, body, &mut scratch, &season, &DefaultI18n),
    )
}

/// What was read of a body.
fn told(alloc: Global, of: Of, body: &[u8]) -> Result<String, AllocError> {
    match of {
        Of::Basket => basket(alloc, body),
        Of::Bill => bill(alloc, body),
        Of::Disk => disk(alloc, body),
        Of::Hook => hook(alloc, body),
        Of::Marks => marks(alloc, body),
        Of::OpenApi => open_api(alloc, body),
        Of::Parcel => parcel(alloc, body),
        Of::Stay => stay(alloc, body),
    }
}

/// Whether this was read of a body.
fn is_told(alloc: Global, of: Of, body: &str, text: &str) -> bool {
    match told(alloc, of, body.as_bytes()) {
        Ok(told) => told.as_str() == text,
        Err(_) => false,
    }
}

// Ends at the first of these bodies that is read otherwise.
fn check(rt: &impl Abort, alloc: Global, of: Of, rows: &[(&str, &str)]) {
    for (body, expected) in rows {
        assert!(rt; is_told(alloc, of, body, expected), "{body}");
    }
}

#[test]
fn each_body_by_its_form(rt: HostRuntime) {
    check(&rt, rt.alloc(), Of::Disk, DISKS);
    check(&rt, rt.alloc(), Of::Basket, BASKETS);
    check(&rt, rt.alloc(), Of::Marks, MARKS);
    check(&rt, rt.alloc(), Of::Parcel, PARCELS);
    check(&rt, rt.alloc(), Of::Bill, BILLS);
    check(&rt, rt.alloc(), Of::Stay, STAYS);
    check(&rt, rt.alloc(), Of::Hook, HOOKS);
    check(&rt, rt.alloc(), Of::OpenApi, OPEN_APIS);
}
