//! What is reported for tuples of values.
use super::told::is_told_by_default;
use super::user_of;
use crate::tests::OrEnd;
use crate::tests::user::User;
use garde::Validate;
use std::alloc::Global;
use std::process::Abort;

#[test]
fn tuples_in_tuples(rt: HostRuntime) {
    let text =
        "[0].username: length is lower than 3\n[1][0].username: not ascii\n[1][0].username: length is lower than 3\n";
    let short = user_of(&rt, rt.alloc(), "ab");
    let accented = user_of(&rt, rt.alloc(), "é");
    let tuple = (short, (accented,));
    assert!(rt; is_told_by_default(rt.alloc(), &tuple, (text, 5)));
}

/// What is reported for a user at each place whose name is too short.
static EACH_TOO_SHORT: [&str; 12] = [
    "[0].username: length is lower than 3\n",
    "[1].username: length is lower than 3\n",
    "[2].username: length is lower than 3\n",
    "[3].username: length is lower than 3\n",
    "[4].username: length is lower than 3\n",
    "[5].username: length is lower than 3\n",
    "[6].username: length is lower than 3\n",
    "[7].username: length is lower than 3\n",
    "[8].username: length is lower than 3\n",
    "[9].username: length is lower than 3\n",
    "[10].username: length is lower than 3\n",
    "[11].username: length is lower than 3\n",
];

/// Whether just this is reported of a tuple of so many users whose names are too short.
fn is_each_told<V: Validate<Context = ()>>(
    rt: &impl Abort,
    alloc: Global,
    tuple: &V,
    count: usize,
) -> bool {
    let Some(lines) = EACH_TOO_SHORT.get(..count) else {
        return false;
    };
    let text = lines.concat(alloc).or_end(rt);
    is_told_by_default(alloc, tuple, (text.as_str(), count.saturating_mul(2)))
}

/// Whether this user, whose name is too short, is reported in each tuple of three to seven.
fn is_told_in_short_tuples(rt: &impl Abort, alloc: Global, u: &User) -> bool {
    is_each_told(rt, alloc, &(u, u, u), 3)
        && is_each_told(rt, alloc, &(u, u, u, u), 4)
        && is_each_told(rt, alloc, &(u, u, u, u, u), 5)
        && is_each_told(rt, alloc, &(u, u, u, u, u, u), 6)
        && is_each_told(rt, alloc, &(u, u, u, u, u, u, u), 7)
}

/// Whether it is reported in each tuple of eight to ten.
fn is_told_in_longer_tuples(rt: &impl Abort, alloc: Global, u: &User) -> bool {
    is_each_told(rt, alloc, &(u, u, u, u, u, u, u, u), 8)
        && is_each_told(rt, alloc, &(u, u, u, u, u, u, u, u, u), 9)
        && is_each_told(rt, alloc, &(u, u, u, u, u, u, u, u, u, u), 10)
}

/// Whether it is reported in each tuple of eleven and twelve.
fn is_told_in_the_longest_tuples(rt: &impl Abort, alloc: Global, u: &User) -> bool {
    is_each_told(rt, alloc, &(u, u, u, u, u, u, u, u, u, u, u), 11)
        && is_each_told(rt, alloc, &(u, u, u, u, u, u, u, u, u, u, u, u), 12)
}

#[test]
fn each_item_of_a_tuple(rt: HostRuntime) {
    let alloc = rt.alloc();
    let user = user_of(&rt, alloc, "ab");
    assert!(rt;
        is_told_in_short_tuples(&rt, alloc, &user)
            && is_told_in_longer_tuples(&rt, alloc, &user)
            && is_told_in_the_longest_tuples(&rt, alloc, &user)
    );
}
