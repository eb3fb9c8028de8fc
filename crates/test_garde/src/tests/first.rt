//! At most so many faults of a value, and whether it has one.
use super::containers::put_ordered;
use super::told::reads;
use super::{user_of, wrong_form};
use crate::tests::OrEnd;
use crate::tests::signup::Limits;
use crate::tests::user::User;
use garde::{DefaultI18n, FirstError, Report, Trail, Validate};
use std::alloc::Global;
use std::collections::BTreeMap;
use std::process::Abort;

/// A line of a report, and the nodes that were made for it and the lines before it.
type Line<'a> = (&'a str, usize);

/// How many faults are asked for.
static MOST: [usize; 12] = [0, 1, 2, 3, 4, 7, 8, 9, 10, 11, usize::MAX - 1, usize::MAX];

/// What is reported for five users named `é` in a list.
static USERS: [Line<'static>; 10] = [
    ("[0].username: not ascii\n", 2),
    ("[0].username: length is lower than 3\n", 2),
    ("[1].username: not ascii\n", 4),
    ("[1].username: length is lower than 3\n", 4),
    ("[2].username: not ascii\n", 6),
    ("[2].username: length is lower than 3\n", 6),
    ("[3].username: not ascii\n", 8),
    ("[3].username: length is lower than 3\n", 8),
    ("[4].username: not ascii\n", 10),
    ("[4].username: length is lower than 3\n", 10),
];

/// What is reported for them in a map.
static NAMED: [Line<'static>; 10] = [
    ("a.username: not ascii\n", 2),
    ("a.username: length is lower than 3\n", 2),
    ("b.username: not ascii\n", 4),
    ("b.username: length is lower than 3\n", 4),
    ("c.username: not ascii\n", 6),
    ("c.username: length is lower than 3\n", 6),
    ("d.username: not ascii\n", 8),
    ("d.username: length is lower than 3\n", 8),
    ("e.username: not ascii\n", 10),
    ("e.username: length is lower than 3\n", 10),
];

/// What is reported for a form with five tags, of which it may have one.
static FORM: [Line<'static>; 10] = [
    ("name: not ascii\n", 1),
    ("name: length is lower than 3\n", 1),
    ("password: weak\n", 2),
    ("tags: length is greater than 1\n", 3),
    ("tags[0]: not ascii\n", 4),
    ("tags[1]: not ascii\n", 5),
    ("tags[2]: not ascii\n", 6),
    ("tags[3]: not ascii\n", 7),
    ("tags[4]: not ascii\n", 8),
    ("address.city: length is lower than 1\n", 10),
];

/// What is printed of the first of these lines, at most so many, and of whether there are more.
fn first_of(rt: &impl Abort, alloc: Global, most: usize, lines: &[Line<'_>]) -> String {
    let mut text = String::new(alloc);
    for (line, _) in lines.iter().take(most) {
        text.push_str(line).or_end(rt);
    }
    if most < lines.len() {
        text.push_str("there are more\n").or_end(rt);
    }
    text
}

/// Whether an answer prints this.
fn prints(alloc: Global, answer: Result<(), FirstError>, text: &str) -> bool {
    match answer {
        Ok(()) => text.is_empty(),
        Err(error) => reads(alloc, &error, text) == Ok(true),
    }
}

/// Whether both calls answer the first of these lines, at most so many, and say whether there are
/// more, and the walk to them makes the nodes of one fault more.
fn is_first<V: Validate>(
    rt: &impl Abort,
    alloc: Global,
    value: &V,
    ctx: &V::Context,
    most: usize,
    lines: &[Line<'_>],
) -> bool {
    let text = first_of(rt, alloc, most, lines);
    let mut trail = Trail::new(alloc);
    let answer = value.validate_first_on(ctx, most, &mut trail, &DefaultI18n);
    let nodes = match lines.get(most).or(lines.last()) {
        Some((_, nodes)) => *nodes,
        None => 0,
    };
    let again = value.validate_first(alloc, ctx, most, &DefaultI18n);
    trail.nodes() == nodes
        && trail.depth() == 0
        && prints(alloc, answer, text.as_str())
        && prints(alloc, again, text.as_str())
}

/// Whether each number is answered for a value, and whether it is valid.
fn is_answered<V: Validate>(
    rt: &impl Abort,
    alloc: Global,
    value: &V,
    ctx: &V::Context,
    lines: &[Line<'_>],
) -> bool {
    for most in &MOST {
        if !is_first(rt, alloc, value, ctx, *most, lines) {
            return false;
        }
    }
    value.is_valid(alloc, ctx) == Ok(lines.is_empty())
}

/// Five users of a name.
fn users(rt: &impl Abort, alloc: Global, name: &str) -> Vec<User> {
    let mut users = Vec::new(alloc);
    for _ in 0..5 {
        users.push(user_of(rt, alloc, name)).or_end(rt);
    }
    users
}

/// Whether each number is answered for five users of a name.
fn are_users_answered(rt: &impl Abort, alloc: Global, name: &str, lines: &[Line<'_>]) -> bool {
    is_answered(rt, alloc, &users(rt, alloc, name), &(), lines)
}

/// Letters that are not in order.
static LETTERS: [&str; 5] = ["e", "b", "a", "d", "c"];

/// Whether each number is answered for five users named `é` that stand each under a letter.
fn are_named_answered(rt: &impl Abort, alloc: Global) -> bool {
    let mut named = BTreeMap::new(alloc);
    for letter in &LETTERS {
        put_ordered(rt, &mut named, *letter, user_of(rt, alloc, "é"));
    }
    is_answered(rt, alloc, &named, &(), &NAMED)
}

/// Whether each number is answered for a form with five tags, of which it may have one.
fn is_form_answered(rt: &impl Abort, alloc: Global) -> bool {
    let form = wrong_form(rt, alloc, &["ü"; 5], "");
    is_answered(rt, alloc, &form, &Limits { most: 1 }, &FORM)
}

// Five users of a name, five that stand each under a letter, and a form.
#[test]
fn the_first_faults_of_each_value(rt: HostRuntime) {
    assert!(rt;
        are_named_answered(&rt, rt.alloc())
            && is_form_answered(&rt, rt.alloc())
            && are_users_answered(&rt, rt.alloc(), "é", &USERS)
            && are_users_answered(&rt, rt.alloc(), "test", &[])
    );
}

/// Whether a walk of five users into a report of one fault, on a trail with this limit, ends so or
/// fails, and leaves so many faults.
fn is_walked(rt: &impl Abort, alloc: Global, most: usize, ends: bool, count: usize) -> bool {
    let users = users(rt, alloc, "é");
    let mut report = Report::new(alloc);
    let mut trail = Trail::new(alloc);
    users
        .validate_into(&(), &mut trail, &mut report, &DefaultI18n)
        .or_end(rt);
    report.truncate(1);
    trail.limit(most);
    let answer = users.validate_into(&(), &mut trail, &mut report, &DefaultI18n);
    answer.is_ok() == ends && report.len() == count
}

// A limit is that of the report, with what it held before.
#[test]
fn a_walk_ends_where_its_report_is_full(rt: HostRuntime) {
    assert!(rt;
        is_walked(&rt, rt.alloc(), 0, false, 1)
            && is_walked(&rt, rt.alloc(), 1, false, 1)
            && is_walked(&rt, rt.alloc(), 10, false, 10)
            && is_walked(&rt, rt.alloc(), 11, true, 11)
    );
}

/// Whether an answer prints this as the answer of a call that asks for all faults.
fn prints_whole(alloc: Global, answer: Result<(), FirstError>, text: &str) -> bool {
    match answer {
        Ok(()) => text.is_empty(),
        Err(error) => reads(alloc, &error.into_whole(), text) == Ok(true),
    }
}

#[test]
fn an_error_of_a_call_that_asks_for_all_faults(rt: HostRuntime) {
    let alloc = rt.alloc();
    let users = users(&rt, alloc, "é");
    let h = &DefaultI18n;
    let more = "[0].username: not ascii\nthere are more\n";
    let whole = "[0].username: not ascii\n";
    assert!(rt;
        prints(
            alloc,
            users.validate_first(alloc, &(), 0, h),
            "there are more\n"
        ) && prints(alloc, users.validate_first(alloc, &(), 1, h), more)
            && prints(alloc, Err(FirstError::Memory), "out of memory")
            && prints_whole(alloc, users.validate_first(alloc, &(), 0, h), "")
            && prints_whole(alloc, users.validate_first(alloc, &(), 1, h), whole)
            && prints_whole(alloc, Err(FirstError::Memory), "out of memory")
    );
}
