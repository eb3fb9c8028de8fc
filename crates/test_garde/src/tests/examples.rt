//! Tests of the example crates: what is reported for the types, and the calls of each module that `garde`
//! passes on.
mod bounds;
mod guide;
mod handlers;
mod known;
mod modules;
mod ported;
mod recursive;
mod walks;
mod written;

use crate::tests::{OrEnd, text_of};
use example_types::data::Data;
use example_types::login::Login;
use example_types::table::Table;
use example_types::team::{League, Member, Team};
use example_types::username::{NumberedUsername, User, Username};
use garde::Validate;
use std::alloc::Global;
use std::error::Error;
use std::process::Abort;

/// Whether an answer prints this text. That of a valid value prints nothing.
fn prints_as<T: Drop, E: Error + Drop>(
    rt: &impl Abort,
    alloc: Global,
    answer: Result<T, E>,
    text: &str,
) -> bool {
    match answer {
        Ok(_) => text.is_empty(),
        Err(refusal) => !text.is_empty() && refusal.to_string(alloc).or_end(rt).as_str() == text,
    }
}

/// Whether this is reported for a value under its default context.
fn is_told<V: Validate>(rt: &impl Abort, alloc: Global, value: &V, text: &str) -> bool
where
    V::Context: Default + Drop,
{
    prints_as(rt, alloc, value.validate(alloc), text)
}

/// The text as one that is owned, where there is one.
fn owned(rt: &impl Abort, alloc: Global, from: Option<&str>) -> Option<String> {
    match from {
        Some(from) => Some(text_of(rt, alloc, from)),
        None => None,
    }
}

/// A login of this name and password.
fn login(rt: &impl Abort, alloc: Global, username: &str, password: &str) -> Login {
    Login {
        username: text_of(rt, alloc, username),
        password: text_of(rt, alloc, password),
        remember: false,
    }
}

/// Whether the report of each login and of each number is the right one.
fn are_logins_and_numbers_told(rt: &impl Abort, alloc: Global) -> bool {
    let long = "not_a_very_good_password";
    let short = "username: not ascii\npassword: length is lower than 15\n";
    is_told(rt, alloc, &login(rt, alloc, "test", long), "")
        && is_told(rt, alloc, &login(rt, alloc, "😂", "short"), short)
        && is_told(
            rt,
            alloc,
            &Data::Struct { field: 100 },
            "field: greater than 10\n",
        )
        && is_told(rt, alloc, &Data::Struct { field: -10 }, "")
        && is_told(rt, alloc, &Data::Tuple(-11), "[0]: lower than -10\n")
}

/// Whether this is reported for a user without a name, by a type that adds no component, and this by
/// a type that adds one.
fn are_users_told(rt: &impl Abort, alloc: Global, transparent: &str, numbered: &str) -> bool {
    let none = User {
        username: Username(String::new(alloc)),
    };
    is_told(rt, alloc, &none, transparent)
        && is_told(
            rt,
            alloc,
            &User {
                username: NumberedUsername(String::new(alloc)),
            },
            numbered,
        )
}

/// A table of a row with a cell that is right, one that is not ASCII and one that is empty, and of a
/// row without cells.
fn table(rt: &impl Abort, alloc: Global) -> Table {
    let cells = vec![in alloc;
        text_of(rt, alloc, "a"),
        text_of(rt, alloc, "é"),
        String::new(alloc),
    ];
    let rows = vec![in alloc; cells.or_end(rt), Vec::new(alloc)];
    Table {
        rows: rows.or_end(rt),
    }
}

#[test]
fn a_refusal_prints_its_report(rt: HostRuntime) {
    let transparent = "username: length is lower than 3\n";
    let numbered = "username[0]: length is lower than 3\n";
    let cells =
        "rows[0][1]: not ascii\nrows[0][2]: length is lower than 1\nrows[1]: length is lower than 1\n";
    assert!(rt;
        are_logins_and_numbers_told(&rt, rt.alloc())
            && are_users_told(&rt, rt.alloc(), transparent, numbered)
            && is_told(&rt, rt.alloc(), &table(&rt, rt.alloc()), cells)
    );
}

/// A member of a team.
fn member(rt: &impl Abort, alloc: Global, nickname: &str, age: u8) -> Member {
    Member {
        nickname: text_of(rt, alloc, nickname),
        age,
    }
}

const LEAGUE: League = League {
    least_age: 18,
    most_members: 1,
};

/// Whether this is reported for a team with this motto.
fn is_told_of_a_team(rt: &impl Abort, alloc: Global, motto: Option<String>, told: &str) -> bool {
    let members = vec![in alloc; member(rt, alloc, "", 18), member(rt, alloc, "Ada", 17)];
    let team = Team {
        name: text_of(rt, alloc, "é"),
        members: members.or_end(rt),
        captain: member(rt, alloc, "Bea", 20),
        motto,
    };
    prints_as(rt, alloc, team.validate_with(alloc, &LEAGUE), told)
}

#[test]
fn each_part_of_a_team(rt: HostRuntime) {
    let none =
        "name: not ascii\nname: length is lower than 3\nmembers: length is greater than 1\nmembers[0].nickname: length is lower than 1\nmembers[1].age: lower than 18\n";
    let short =
        "name: not ascii\nname: length is lower than 3\nmembers: length is greater than 1\nmembers[0].nickname: length is lower than 1\nmembers[1].age: lower than 18\nmotto: length is lower than 1\n";
    assert!(rt;
        is_told_of_a_team(&rt, rt.alloc(), None, none)
            && is_told_of_a_team(&rt, rt.alloc(), Some(String::new(rt.alloc())), short)
    );
}
