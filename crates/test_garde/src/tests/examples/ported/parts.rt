//! Types with parts that validate themselves, and types of one field.
use super::tells;
use crate::tests::{OrEnd, text_of};
use example_ported::team::{Cup, Ground, League, Member, Team, Terms};
use example_ported::wrapped::{Boxes, Code, Holder, Nickname, Nothing, Numbered, Triple};
use garde::Validate;
use std::alloc::Global;
use std::process::Abort;

const LEAGUE: League = League {
    members: Terms { age: 18, title: 3 },
    most: 1,
};

/// A member of this age and with this title.
fn member(rt: &impl Abort, alloc: Global, age: u8, title: &str) -> Member {
    Member {
        age,
        title: text_of(rt, alloc, title),
    }
}

/// A team of these members, whose others have this age and title.
fn team(rt: &impl Abort, alloc: Global, members: Vec<Member>, age: u8, title: &str) -> Team {
    Team {
        members,
        captain: Box::new(alloc, member(rt, alloc, age, title)).or_end(rt),
        coach: Some(member(rt, alloc, age, title)),
        ground: Ground {
            town: text_of(rt, alloc, title),
        },
        reserve: Some(member(rt, alloc, age, title)),
    }
}

/// So many members of this age and title.
fn members(rt: &impl Abort, alloc: Global, count: usize, age: u8, title: &str) -> Vec<Member> {
    let mut found = Vec::new(alloc);
    for _ in 0..count {
        found.push(member(rt, alloc, age, title)).or_end(rt);
    }
    found
}

/// Whether this is reported for a cup of one team of so many members of this age and title, and a winner
/// of one member of 18.
fn is_told_of_a_cup(
    rt: &impl Abort,
    alloc: Global,
    (count, age, title): (usize, u8, &str),
    told: &str,
) -> bool {
    let all = team(rt, alloc, members(rt, alloc, count, age, title), age, title);
    let cup = Cup {
        teams: vec![in alloc; all].or_end(rt),
        winner: Some(team(rt, alloc, members(rt, alloc, 1, 18, title), 18, title)),
    };
    tells(rt, alloc, &cup, &LEAGUE, told)
}

const BAD_CUP: &str =
    "teams[0].members: length is greater than 1\nteams[0].members[0].years: lower than 18\nteams[0].members[1].years: lower than 18\nteams[0].captain.years: lower than 18\nteams[0].coach.years: lower than 18\nteams[0].home.town: not ascii\nteams[0].reserve.years: lower than 18\nwinner.home.town: not ascii\n";

const BAD_MEMBER: &str = "years: lower than 18\ntitle: length is greater than 3\n";

/// Whether the report of each part is the right one.
fn are_parts_told(rt: &impl Abort, alloc: Global) -> bool {
    is_told_of_a_cup(rt, alloc, (1, 18, "abc"), "")
        && is_told_of_a_cup(rt, alloc, (2, 17, "é"), BAD_CUP)
        && tells(
            rt,
            alloc,
            &member(rt, alloc, 17, "abcd"),
            &LEAGUE.members,
            BAD_MEMBER,
        )
}

#[test]
fn each_part_of_a_cup(rt: HostRuntime) {
    assert!(rt; are_parts_told(&rt, rt.alloc()));
}

/// Whether this is reported for a text in a box.
fn is_told_of_boxes(rt: &impl Abort, alloc: Global, from: &str, told: &str) -> bool {
    let first = Box::new(alloc, Numbered(text_of(rt, alloc, from))).or_end(rt);
    let boxes = Boxes(vec![in alloc; first].or_end(rt));
    tells(rt, alloc, &boxes, &(), told)
}

/// Whether this is reported for a code of this text.
fn is_told_of_a_code(rt: &impl Abort, alloc: Global, from: &str, told: &str) -> bool {
    let code = Code {
        text: text_of(rt, alloc, from),
    };
    tells(rt, alloc, &code, &(), told)
}

/// Whether this is reported for a holder of this text, twice.
fn is_told_of_a_holder(rt: &impl Abort, alloc: Global, from: &str, told: &str) -> bool {
    let holder = Holder {
        value: Nickname(text_of(rt, alloc, from)),
        label: text_of(rt, alloc, from),
    };
    tells(rt, alloc, &holder, &(), told)
}

/// Whether the report of each type with a part round a text, or with two rules of it, is the right one.
fn are_holders_told(rt: &impl Abort, alloc: Global) -> bool {
    is_told_of_boxes(rt, alloc, "abc", "")
        && is_told_of_boxes(rt, alloc, "ab", "[0][0]: length is lower than 3\n")
        && is_told_of_a_code(rt, alloc, "abcd", "")
        && is_told_of_a_code(rt, alloc, "é123", "not ascii\nlength is greater than 4\n")
        && is_told_of_a_holder(rt, alloc, "abc", "")
        && is_told_of_a_holder(
            rt,
            alloc,
            "",
            "value: length is lower than 3\nlabel: length is lower than 1\n",
        )
}

/// Whether this is reported for a value, which is dropped.
fn is_told<V: Validate<Context = ()> + Drop>(
    rt: &impl Abort,
    alloc: Global,
    value: V,
    told: &str,
) -> bool {
    tells(rt, alloc, &value, &(), told)
}

/// Whether the report is the right one of the type of one text that stands under no index, and of the type
/// without a field.
fn are_told_without_index(rt: &impl Abort, alloc: Global) -> bool {
    let short = "length is lower than 3\n";
    is_told(rt, alloc, Nickname(text_of(rt, alloc, "abc")), "")
        && is_told(rt, alloc, Nickname(text_of(rt, alloc, "ab")), short)
        && is_told(rt, alloc, Nothing, "")
}

/// Whether the report of each type of numbered fields is the right one.
fn are_told(rt: &impl Abort, alloc: Global) -> bool {
    let short = "[0]: length is lower than 3\n";
    let both = "[0]: not ascii\n[2]: greater than 9\n";
    is_told(rt, alloc, Numbered(text_of(rt, alloc, "abc")), "")
        && is_told(rt, alloc, Numbered(text_of(rt, alloc, "ab")), short)
        && is_told(rt, alloc, Triple(text_of(rt, alloc, "a"), 255, 9), "")
        && is_told(rt, alloc, Triple(text_of(rt, alloc, "é"), 255, 10), both)
}

#[test]
fn types_of_one_field_or_of_numbered_ones(rt: HostRuntime) {
    assert!(rt;
        are_holders_told(&rt, rt.alloc())
            && are_told_without_index(&rt, rt.alloc())
            && are_told(&rt, rt.alloc())
    );
}
