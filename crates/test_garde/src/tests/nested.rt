//! Values alone, in others and deep in lists, under the default handler and a user-defined one.
use super::custom::Custom;
use super::signup::Limits;
use super::told::is_told;
use super::walks::twelve;
use super::{OrEnd, user_of, wrong_form};
use garde::{DefaultI18n, I18n};
use std::alloc::Global;
use std::process::Abort;

/// What is reported of a user and of a form by default.
static BY_DEFAULT: (&str, &str) = (
    "username: not ascii\nusername: length is lower than 3\n",
    "name: not ascii\nname: length is lower than 3\npassword: weak\ntags: length is greater than 1\ntags[1]: not ascii\naddress.city: length is lower than 1\n",
);

/// What the user-defined handler reports.
static BY_CUSTOM: (&str, &str) = (
    "username: custom: contains non-ASCII characters\nusername: custom: too short, need at least 3\n",
    "name: custom: contains non-ASCII characters\nname: custom: too short, need at least 3\npassword: weak\ntags: custom: too long, maximum is 1\ntags[1]: custom: contains non-ASCII characters\naddress.city: custom: too short, need at least 1\n",
);

/// Whether a handler reports these of a user whose name is wrong, and of a wrong form that may have
/// one tag.
fn are_told<H: I18n>(rt: &impl Abort, alloc: Global, h: &H, (one, whole): (&str, &str)) -> bool {
    let user = user_of(rt, alloc, "é");
    let form = wrong_form(rt, alloc, &["ok", "ü"], "");
    is_told(alloc, &user, &(), h, (one, 1))
        && is_told(alloc, &form, &Limits { most: 1 }, h, (whole, 6))
}

#[test]
fn alone_and_nested_by_each_handler(rt: HostRuntime) {
    let custom = Custom {
        weight: Vec::new(rt.alloc()),
    };
    assert!(rt;
        are_told(&rt, rt.alloc(), &DefaultI18n, BY_DEFAULT)
            && are_told(&rt, rt.alloc(), &custom, BY_CUSTOM)
    );
}

// A valid user in twelve lists has no report, and took no node.
#[test]
fn a_deep_valid_value_makes_no_node(rt: HostRuntime) {
    let lists = twelve(rt.alloc(), "test").or_end(&rt);
    assert!(rt; is_told(rt.alloc(), &lists, &(), &DefaultI18n, ("", 0)));
}
