//! Paths, errors and reports.

use crate::tests::report::samples::{
    are_in_order, have_messages, is_kept, path_of, path_to, report_of,
};
use crate::tests::{OrEnd, has_text, printed, shows};
use garde_report::{Kind, NoKey, Path, PathComponentKind, Report, RuleError, select};
use std::alloc::Global;
use std::borrow::CowStr;
use std::cmp::Ordering;
use std::process::Abort;

const A: (Kind, &str) = (Kind::Key, "a");

const ZERO: (Kind, &str) = (Kind::Index, "0");

const ONE: (Kind, &str) = (Kind::Index, "1");

/// Whether a walk of `[0].a[1]`, which begins at the last component, gives one from the front, one from
/// the back, and twice from the front what is left.
fn is_walked(rt: &impl Abort, alloc: Global, path: &Path) -> bool {
    let mut walk = path.iter(alloc).or_end(rt);
    let length = walk.len();
    let given = [walk.next(), walk.next_back(), walk.next(), walk.next()];
    length == 3 && given == [Some(ONE), Some(ZERO), Some(A), None]
}

/// Whether a path without its last component is another one.
fn is_beneath(rt: &impl Abort, path: &Path, above: &Path) -> bool {
    match path.parent().or_end(rt) {
        Some(parent) => parent == *above,
        None => false,
    }
}

/// Whether `[0].a[1]`, by joins, has its length and its texts, is walked, and is under `[0].a`.
fn is_joined(rt: &impl Abort, alloc: Global) -> bool {
    let path = path_to(rt, alloc, 1).join(alloc, "a").or_end(rt);
    let path = path.join(alloc, 1usize).or_end(rt);
    let shown = "Path { components: [(Index, \"0\"), (Key, \"a\"), (Index, \"1\")] }";
    path.len() == 3
        && has_text(rt, alloc, &path, "[0].a[1]")
        && shows(rt, alloc, &path, shown)
        && is_walked(rt, alloc, &path)
        && is_beneath(rt, &path, &path_of(rt, alloc, "#0>a>"))
}

#[test]
fn a_path_is_joined_walked_and_cut(rt: HostRuntime) {
    let root = Path::default();
    assert!(rt;
        is_joined(&rt, rt.alloc())
            && root.is_empty()
            && root.parent().or_end(&rt).is_none()
            && has_text(&rt, rt.alloc(), &root, "")
    );
}

/// A path as `path_of` reads it and its text, another path and its text, and the order of both.
type Row = (
    &'static str,
    &'static str,
    &'static str,
    &'static str,
    Ordering,
);

static PATHS: [Row; 17] = [
    ("a>b>", "a.b", "a>b>", "a.b", Ordering::Equal),
    // A text of 22 bytes, and one of 23.
    (
        "abcdefghijklmnopqrstuv>b>",
        "abcdefghijklmnopqrstuv.b",
        "#abcdefghijklmnopqrstuvw>",
        "[abcdefghijklmnopqrstuvw]",
        Ordering::Greater,
    ),
    ("?>k>", ".k", "a>", "a", Ordering::Greater),
    ("#0>#0>a>", "[0][0].a", "", "", Ordering::Greater),
    ("?x>#0>", "x[0]", "a>?>b>", "a.b", Ordering::Less),
    // Different paths of one text.
    ("a.b>", "a.b", "a>b>", "a.b", Ordering::Less),
    ("a[0]>", "a[0]", "a>#0>", "a[0]", Ordering::Less),
    ("?>a>", ".a", ">a>", ".a", Ordering::Less),
    (">", "", "", "", Ordering::Greater),
    (
        "#0].a[1>",
        "[0].a[1]",
        "#0>a>#1>",
        "[0].a[1]",
        Ordering::Less,
    ),
    // Shorter paths come first.
    ("z>", "z", "a>b>", "a.b", Ordering::Less),
    ("a>", "a", "#0>", "[0]", Ordering::Less),
    ("#2>", "[2]", "#10>", "[10]", Ordering::Greater),
    ("b>a>", "b.a", "a>b>", "a.b", Ordering::Greater),
    ("a>b>", "a.b", "a.b>", "a.b", Ordering::Greater),
    ("#0>", "[0]", "#0>", "[0]", Ordering::Equal),
    ("", "", "", "", Ordering::Equal),
];

/// Whether two paths have their texts, and are in their order.
fn is_row(rt: &impl Abort, alloc: Global, row: &Row) -> bool {
    let path = path_of(rt, alloc, row.0);
    let other = path_of(rt, alloc, row.2);
    has_text(rt, alloc, &path, row.1)
        && has_text(rt, alloc, &other, row.3)
        && are_in_order(&path, &other, row.4)
}

#[test]
fn paths_have_their_texts_and_their_order(rt: HostRuntime) {
    for (number, row) in PATHS.iter().enumerate() {
        assert!(rt; is_row(&rt, rt.alloc(), row), "row {number}");
    }
}

/// Whether the path of a component is that of this text, as `path_of` reads it.
pub fn is_path_of<K: PathComponentKind + Drop>(
    rt: &impl Abort,
    alloc: Global,
    made: K,
    text: &str,
) -> bool {
    are_in_order(
        &Path::new(alloc, made).or_end(rt),
        &path_of(rt, alloc, text),
        Ordering::Equal,
    )
}

/// Whether the component of a number that is lent has the kind of its type, and its text.
fn is_lent(rt: &impl Abort, alloc: Global) -> bool {
    let shared = (&7usize).component();
    shared.kind() == <&usize as PathComponentKind>::component_kind()
        && has_text(rt, alloc, &shared, "7")
}

#[test]
fn each_type_of_component_has_its_kind(rt: HostRuntime) {
    let alloc = rt.alloc();
    assert!(rt;
        is_path_of(&rt, alloc, String::from_str(alloc, "a").or_end(&rt), "a>")
            && is_path_of(&rt, alloc, CowStr::Borrowed("a"), "a>")
            && is_path_of(&rt, alloc, "a", "a>")
            && is_path_of(&rt, alloc, NoKey::default(), "?>")
            && has_text(&rt, alloc, &NoKey::default(), "")
            && is_lent(&rt, alloc)
    );
}

/// Faults: the path of each as `path_of` reads it, and its message.
type Faults = &'static [(&'static str, &'static str)];

/// Faults, what their report prints, and what it shows a programmer.
static REPORTS: [(Faults, &str, &str); 5] = [
    (&[], "", "Report { errors: [] }"),
    (
        &[("content_fingerprints>#0>", "x")],
        "content_fingerprints[0]: x\n",
        "Report { errors: [(Path { components: [(Key, \"content_fingerprints\"), (Index, \"0\")] }, Error { message: \"x\" })] }",
    ),
    (
        &[("?>", "x"), ("", "x"), ("a>b>", "y\nz")],
        ": x\nx\na.b: y\nz\n",
        "Report { errors: [(Path { components: [(None, \"\")] }, Error { message: \"x\" }), (Path { components: [] }, Error { message: \"x\" }), (Path { components: [(Key, \"a\"), (Key, \"b\")] }, Error { message: \"y\\nz\" })] }",
    ),
    (
        &[("", "x")],
        "x\n",
        "Report { errors: [(Path { components: [] }, Error { message: \"x\" })] }",
    ),
    (
        &[("", "a message of more than 30 bytes")],
        "a message of more than 30 bytes\n",
        "Report { errors: [(Path { components: [] }, Error { message: \"a message of more than 30 bytes\" })] }",
    ),
];

/// Whether the report of these faults has one entry for each, and these texts.
fn is_report(rt: &impl Abort, alloc: Global, faults: Faults, text: &str, wanted: &str) -> bool {
    let report = report_of(rt, alloc, faults);
    report.len() == faults.len()
        && report.is_empty() == faults.is_empty()
        && has_text(rt, alloc, &report, text)
        && shows(rt, alloc, &report, wanted)
}

#[test]
fn only_the_root_has_no_colon(rt: HostRuntime) {
    for (faults, text, wanted) in &REPORTS {
        assert!(rt; is_report(&rt, rt.alloc(), faults, text, wanted), "{text}");
    }
}

/// Four faults, two of them at one path.
static FOUR: [(&str, &str); 4] = [
    ("a>b>", "lol"),
    ("a>b>c>", "that seems wrong"),
    ("a>b>c>", "pog"),
    ("array>0>c>", "pog"),
];

#[test]
fn a_clone_is_equal(rt: HostRuntime) {
    let report = report_of(&rt, rt.alloc(), &FOUR);
    let faults = report.clone().or_end(&rt).into_inner();
    assert!(rt; report.len() == 4 && report.iter().eq(faults.iter()));
}

/// The keys of a path, and the messages of the four faults that stand at it or under it.
static SELECTED: [(&[&str], &[&str]); 5] = [
    (&["a", "b", "c"], &["that seems wrong", "pog"]),
    (&["array", "0", "c"], &["pog"]),
    (&["a"], &["lol", "that seems wrong", "pog"]),
    (&[], &["lol", "that seems wrong", "pog", "pog"]),
    (&["b"], &[]),
];

#[test]
fn select_takes_what_stands_beneath(rt: HostRuntime) {
    let report = report_of(&rt, rt.alloc(), &FOUR);
    for (way, messages) in &SELECTED {
        assert!(rt; have_messages(select(&report, way), messages));
    }
}

/// Texts of a fault. The last three have 30, 31 and 31 bytes.
static KEPT: [&str; 5] = [
    "",
    "not set",
    "abcdefghijklmnopqrstuvwxyz0123",
    "abcdefghijklmnopqrstuvwxyz01234",
    "abcdefghijklmnopqrstuvwxyz012\u{e9}",
];

/// Whether the fault of a text has it as its message, where it is lent and where it is handed over.
fn is_kept_twice(rt: &impl Abort, alloc: Global, text: &'static str) -> bool {
    let owned = CowStr::Owned(String::from_str(alloc, text).or_end(rt));
    is_kept(rt, RuleError::of(alloc, Ok(owned)), text)
        && is_kept(rt, RuleError::of(alloc, Ok(CowStr::Borrowed(text))), text)
}

#[test]
fn a_rule_error_keeps_the_text(rt: HostRuntime) {
    for text in &KEPT {
        assert!(rt; is_kept_twice(&rt, rt.alloc(), text), "{text}");
    }
}

#[test]
fn a_million_components_need_no_deep_stack(rt: HostRuntime) {
    let path = path_to(&rt, rt.alloc(), 1_000_000);
    // The text has the digits of all indices, and two brackets for each.
    assert!(rt;
        path.iter(rt.alloc()).or_end(&rt).last() == Some(ZERO)
            && are_in_order(&path, &path.clone().or_end(&rt), Ordering::Equal)
            && printed(&rt, rt.alloc(), &path).len() == 7_888_890
    );
}
