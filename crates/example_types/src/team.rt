//! A value with parts: items, a part of a type of its own, and an option.
ghost use Rattle.garde.specs.Fields.{◌and◌, ascii, at_least, between, bytes, chars, each, field, if_some, is, items, range, slice, str};

use garde::fields::{Ascii, Dive, Each, Field, Fields, IfSome, Is};
use garde::{I18n, Report, Stated, Trail, Validate, length, range};
use std::alloc::AllocError;

/// What a league asks of its teams.
#[derive(Clone, Copy)]
pub struct League {
    /// The least age of a member in years.
    pub least_age: u8,
    /// The greatest number of members.
    pub most_members: usize,
}

/// Someone of a team.
#[derive(Drop)]
pub struct Member {
    pub nickname: String,
    pub age: u8,
}

impl Stated for Member {
    type Context = League;

    ghost visits = { λ v league.
        field "nickname" (is (chars (between 1 20) (str v.nickname)))
        and field "age" (is (range (at_least league.least_age) v.age)) };
}

impl Validate for Member {
    fn validate_into<'a, H: I18n>(
        &'a self,
        ctx: &League,
        trail: &mut Trail<'a>,
        report: &mut Report,
        h: &H,
    ) -> Result<(), AllocError> {
        let Self { nickname, age } = self;
        (
            Field("nickname", nickname, Is(length!(chars, min = 1, max = 20))),
            Field("age", age, Is(range!(min = ctx.least_age))),
        )
            .visit(trail, report, h)
    }
}

/// A team.
#[derive(Drop)]
pub struct Team {
    pub name: String,
    pub members: Vec<Member>,
    pub captain: Member,
    pub motto: Option<String>,
}

impl Stated for Team {
    type Context = League;

    ghost visits = { λ v league.
        field "name" (is (ascii (str v.name)) and is (bytes (between 3 25) (str v.name)))
        and field "members" (is (items (between 1 league.most_members) (slice v.members))
        and each (λ member. ⟦<Member as Stated>⟧.visits member league) (slice v.members))
        and field "captain" (⟦<Member as Stated>⟧.visits v.captain league)
        and field "motto" (if_some (λ text. is (chars (between 1 40) (str text))) v.motto) };
}

impl Validate for Team {
    fn validate_into<'a, H: I18n>(
        &'a self,
        ctx: &League,
        trail: &mut Trail<'a>,
        report: &mut Report,
        h: &H,
    ) -> Result<(), AllocError> {
        let Self {
            name,
            members,
            captain,
            motto,
        } = self;
        let few = length!(min = 1, max = ctx.most_members);
        (
            Field("name", name, (Is(Ascii), Is(length!(min = 3, max = 25)))),
            Field("members", members, (Is(few), Each(Dive(ctx)))),
            Field("captain", captain, Dive(ctx)),
            Field(
                "motto",
                motto,
                IfSome(Is(length!(chars, min = 1, max = 40))),
            ),
        )
            .visit(trail, report, h)
    }
}
