//! Types as an author writes them, and what is reported for them.
mod asked;
mod asked_rules;
mod badge;
mod contact;
mod containers;
mod counted;
mod couple;
mod custom;
mod documents;
mod examples;
mod first;
mod handed_on;
mod handlers;
mod hostile;
mod item;
mod laws;
mod long;
mod many;
mod names;
mod nested;
mod over_lists;
mod parts;
mod paths;
mod patterns;
mod ported_patterns;
mod profile;
mod promises;
mod refusals;
mod reports;
mod rules;
mod scale;
mod searched;
mod signup;
mod span;
mod starved;
mod texts;
mod told;
mod tuples;
mod typed_states;
mod unneeded;
mod user;
mod walks;

use crate::tests::badge::Badge;
use crate::tests::contact::Contact;
use crate::tests::couple::Couple;
use crate::tests::handlers::{Labelled, SILENT};
use crate::tests::item::{Identifier, Item};
use crate::tests::long::Long;
use crate::tests::profile::Profile;
use crate::tests::signup::{Address, Limits, Signup};
use crate::tests::told::tells_all;
use crate::tests::user::User;
use garde::{DefaultI18n, I18n, Report, Trail, Validate, ValidateError, select, with_i18n};
use garde_report::Component;
use std::alloc::Global;
use std::process::Abort;

/// The value of an Ok, where a test asks nothing of the error.
trait OrEnd<T> {
    /// The value, or the end of the test.
    fn or_end(self, rt: &impl Abort) -> T;
}

impl<T: Drop, E: Drop> OrEnd<T> for Result<T, E> {
    fn or_end(self, rt: &impl Abort) -> T {
        match self {
            Ok(value) => value,
            Err(_) => rt.abort(),
        }
    }
}

/// This text, on the heap.
fn text_of(rt: &impl Abort, alloc: Global, text: &str) -> String {
    String::from_str(alloc, text).or_end(rt)
}

/// A user of this name.
fn user_of(rt: &impl Abort, alloc: Global, name: &str) -> User {
    User {
        username: text_of(rt, alloc, name),
    }
}

/// One user of this name, and no second one.
fn user_and_none(rt: &impl Abort, alloc: Global, name: &str) -> Vec<Option<User>> {
    vec![in alloc; Some(user_of(rt, alloc, name)), None].or_end(rt)
}

/// A home in this city.
fn address(rt: &impl Abort, alloc: Global, city: &str) -> Address {
    Address {
        street: text_of(rt, alloc, "Main"),
        city: text_of(rt, alloc, city),
        code: text_of(rt, alloc, "60200"),
    }
}

/// These texts, in order.
fn texts_of(rt: &impl Abort, alloc: Global, texts: &[&str]) -> Vec<String> {
    let mut kept = Vec::new(alloc);
    for text in texts {
        kept.push(text_of(rt, alloc, text)).or_end(rt);
    }
    kept
}

/// A form whose name and password are wrong, with these tags and this city.
fn wrong_form(rt: &impl Abort, alloc: Global, tags: &[&str], city: &str) -> Signup {
    Signup {
        name: text_of(rt, alloc, "é"),
        password: text_of(rt, alloc, "short"),
        tags: texts_of(rt, alloc, tags),
        address: address(rt, alloc, city),
    }
}

// A wrong form that may have one tag.
#[test]
fn each_field_under_its_name(rt: HostRuntime) {
    let text =
        "name: not ascii\nname: length is lower than 3\npassword: weak\ntags: length is greater than 1\ntags[1]: not ascii\naddress.city: length is lower than 1\n";
    let signup = wrong_form(&rt, rt.alloc(), &["ok", "ü"], "");
    let answer = signup.validate_with(rt.alloc(), &Limits { most: 1 });
    assert!(rt; tells_all(rt.alloc(), answer, text));
}

// A row that is empty, and one that holds a box of an address without a city.
#[test]
fn wrappers_add_no_component(rt: HostRuntime) {
    let home = address(&rt, rt.alloc(), "");
    let boxed = Box::new(rt.alloc(), &home).or_end(&rt);
    let rows = vec![in rt.alloc(); None, Some(boxed)].or_end(&rt);
    let answer = rows.validate(rt.alloc());
    assert!(rt; tells_all(rt.alloc(), answer, "[1].city: length is lower than 1\n"));
}

// A contact by mail and one that is silent, and badges whose path is made by hand.
#[test]
fn couples_and_contacts(rt: HostRuntime) {
    let alloc = rt.alloc();
    let couple = Couple {
        left: Contact::Mail(text_of(&rt, alloc, "ñ")),
        right: Contact::Silent,
    };
    let answer = couple.validate_with_i18n(alloc, &(), &DefaultI18n);
    assert!(rt;
        tells_all(alloc, answer, "left.mail: not ascii\n")
            && tells_all(
                alloc,
                Badge { number: 0 }.validate(alloc),
                "number: lower than 1\n"
            )
            && tells_all(alloc, Badge { number: 1 }.validate(alloc), "")
    );
}

// A home in a city, and one that is in none, behind one component, which stays.
#[test]
fn paths_begin_with_the_trail(rt: HostRuntime) {
    let alloc = rt.alloc();
    let brno = address(&rt, alloc, "Brno");
    let homes = vec![in alloc; brno, address(&rt, alloc, "")].or_end(&rt);
    let mut trail = Trail::new(alloc);
    trail.push(Component::key("homes")).or_end(&rt);
    let answer = homes.validate_on(&Limits::default(), &mut trail, &DefaultI18n);
    assert!(rt;
        trail.nodes() == 3
            && trail.depth() == 1
            && tells_all(alloc, answer, "homes[1].city: length is lower than 1\n")
    );
}

/// Whether a handler says this of a text.
fn says<H: I18n>(alloc: Global, long: &Long, h: &H, text: &str) -> bool {
    tells_all(alloc, long.validate_with_i18n(alloc, &(), h), text)
}

/// Whether a handler speaks before and after an inner one, and the inner one between.
fn says_around<H: I18n>(alloc: Global, long: &Long, outer: &H, text: &str) -> bool {
    let inner = Labelled {
        label: "INNER:",
        tells_bounds: true,
    };
    says(alloc, long, outer, text)
        && with_i18n(inner, |inner| says(alloc, long, inner, "s: INNER:5\n"))
        && says(alloc, long, outer, text)
}

#[test]
fn the_inner_handler_speaks_inside(rt: HostRuntime) {
    let alloc = rt.alloc();
    let long = Long {
        s: text_of(&rt, alloc, "ab"),
    };
    let outer = Labelled {
        label: "OUTER:",
        tells_bounds: true,
    };
    let by_default = "s: length is lower than 5\n";
    let before = tells_all(alloc, long.validate(alloc), by_default);
    let inside = with_i18n(
        outer,
        |outer| says_around(alloc, &long, outer, "s: OUTER:5\n"),
    );
    assert!(rt; before && inside && tells_all(alloc, long.validate(alloc), by_default));
}

/// Whether a reference to a handler that borrows this label from a text says this.
fn is_said_by(rt: &impl Abort, alloc: Global, label: &str, text: &str) -> bool {
    let label = text_of(rt, alloc, label);
    let long = Long {
        s: text_of(rt, alloc, "ab"),
    };
    let h = Labelled {
        label: label.as_str(),
        tells_bounds: true,
    };
    says(alloc, &long, &&h, text)
}

#[test]
fn a_handler_says_what_it_likes(rt: HostRuntime) {
    let alloc = rt.alloc();
    let label = "m".repeat(alloc, 1_000_000).or_end(&rt);
    let text = format!(in alloc; "s: {label}5\n").or_end(&rt);
    assert!(rt;
        is_said_by(&rt, alloc, "a\nb ", "s: a\nb 5\n")
            && is_said_by(&rt, alloc, "[cs-CZ] ", "s: [cs-CZ] 5\n")
            && is_said_by(&rt, alloc, label.as_str(), text.as_str())
    );
}

// The handler says nothing of a wrong form, whose password has a message of its own.
#[test]
fn own_messages_stay(rt: HostRuntime) {
    let signup = wrong_form(&rt, rt.alloc(), &[], "Brno");
    let answer = signup.validate_with_i18n(rt.alloc(), &Limits { most: 9 }, &SILENT);
    assert!(rt; tells_all(rt.alloc(), answer, "name: \nname: \npassword: weak\n"));
}

// The handler says nothing of a list of one user with a wrong name.
#[test]
fn empty_texts_leave_their_paths(rt: HostRuntime) {
    let users = vec![in rt.alloc(); Some(user_of(&rt, rt.alloc(), "é"))].or_end(&rt);
    let answer = users.validate_with_i18n(rt.alloc(), &(), &SILENT);
    assert!(rt; tells_all(rt.alloc(), answer, "[0].username: \n[0].username: \n"));
}

/// Whether these are the messages of a report at and under a prefix.
fn is_selected(report: &Report, way: &[&str], messages: &[&str]) -> bool {
    let found = select(report, way).map(|error| error.message());
    found.eq(messages.iter().copied())
}

// An item with a wrong name and two wrong identifiers.
#[test]
fn selects_the_faults_of_a_part(rt: HostRuntime) {
    let alloc = rt.alloc();
    let item = Item {
        name: text_of(&rt, alloc, "😂"),
        identifiers: vec![in alloc; Identifier { id: 10 }, Identifier { id: 20 }].or_end(&rt),
    };
    let answer = item.validate(alloc);
    let name = ["not ascii", "length is lower than 10"];
    assert!(rt;
        matches!(&answer, Err(ValidateError::Report(report))
            if is_selected(report, &["name"], &name)
                && is_selected(report, &["identifiers", "0"], &["greater than 4"]))
    );
}

// A profile of which nothing is right.
#[test]
fn each_rule_has_its_text(rt: HostRuntime) {
    let text =
        "tag: not alphanumeric\naddress: value does not begin with \"https://\"\naddress: does not contain \".\"\naddress: does not end with \"/\"\nphone: not set\nhost: not a valid IP address\nsite: not a valid url: relative URL without a base\ndegrees: greater than 10\n";
    let profile = Profile {
        tag: text_of(&rt, rt.alloc(), "a b"),
        address: text_of(&rt, rt.alloc(), "localhost"),
        phone: None,
        host: text_of(&rt, rt.alloc(), "1.2.3"),
        site: text_of(&rt, rt.alloc(), "abc"),
        degrees: 100,
    };
    assert!(rt; tells_all(rt.alloc(), profile.validate(rt.alloc()), text));
}
