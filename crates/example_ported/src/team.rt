//! Parts that validate themselves, under a context and parts of it.
ghost use Rattle.garde.specs.Fields.{◌and◌, ascii, at_least, between, chars, each, each_of_option, field, if_some, is, items, range, slice, str};

use garde::fields::{Ascii, Dive, Each, Field, Fields, IfSome, Is};
use garde::{I18n, Report, Stated, Trail, Validate, length, range};
use std::alloc::AllocError;

/// What is asked of a member.
#[derive(Clone, Copy)]
pub struct Terms {
    /// The least age in years.
    pub age: u8,
    pub title: usize,
}

/// What a league asks of its teams.
#[derive(Clone, Copy)]
pub struct League {
    pub members: Terms,
    pub most: usize,
}

/// Someone of a team.
#[derive(Drop)]
pub struct Member {
    pub age: u8,
    pub title: String,
}

impl Stated for Member {
    type Context = Terms;

    ghost visits = { λ v terms.
        field "years" (is (range (at_least terms.age) v.age))
        and field "title" (is (chars (between 1 terms.title) (str v.title))) };
}

impl Validate for Member {
    fn validate_into<'a, H: I18n>(
        &'a self,
        terms: &Terms,
        trail: &mut Trail<'a>,
        report: &mut Report,
        h: &H,
    ) -> Result<(), AllocError> {
        let Self { age, title } = self;
        (
            Field("years", age, Is(range!(min = terms.age))),
            Field(
                "title",
                title,
                Is(length!(chars, min = 1, max = terms.title)),
            ),
        )
            .visit(trail, report, h)
    }
}

/// A team.
#[derive(Drop)]
pub struct Team {
    pub members: Vec<Member>,
    pub captain: Box<Member>,
    pub coach: Option<Member>,
    pub ground: Ground,
    pub reserve: Option<Member>,
}

impl Stated for Team {
    type Context = League;

    ghost visits = { λ v league.
        field "members" (is (items (between 1 league.most) (slice v.members)) and each (λ x. ⟦<Member as Stated>⟧.visits x league.members) (slice v.members))
        and field "captain" (⟦<Member as Stated>⟧.visits v.captain.value league.members)
        and field "coach" (if_some (λ x. ⟦<Member as Stated>⟧.visits x league.members) v.coach)
        and field "home" (⟦<Ground as Stated>⟧.visits v.ground tt)
        and field "reserve" (each_of_option (λ x. ⟦<Member as Stated>⟧.visits x league.members) v.reserve) };
}

impl Validate for Team {
    fn validate_into<'a, H: I18n>(
        &'a self,
        league: &League,
        trail: &mut Trail<'a>,
        report: &mut Report,
        h: &H,
    ) -> Result<(), AllocError> {
        let Self {
            members,
            captain,
            coach,
            ground,
            reserve,
        } = self;
        (
            Field(
                "members",
                members,
                (
                    Is(length!(min = 1, max = league.most)),
                    Each(Dive(&league.members)),
                ),
            ),
            Field("captain", captain, Dive(&league.members)),
            Field("coach", coach, IfSome(Dive(&league.members))),
            Field("home", ground, Dive(&())),
            Field("reserve", reserve, Each(Dive(&league.members))),
        )
            .visit(trail, report, h)
    }
}

/// Where a team plays.
#[derive(Drop)]
pub struct Ground {
    pub town: String,
}

impl Stated for Ground {
    type Context = ();

    ghost visits = { λ v _. field "town" (is (ascii (str v.town))) };
}

impl Validate for Ground {
    fn validate_into<'a, H: I18n>(
        &'a self,
        _ctx: &(),
        trail: &mut Trail<'a>,
        report: &mut Report,
        h: &H,
    ) -> Result<(), AllocError> {
        let Self { town } = self;
        Field("town", town, Is(Ascii)).visit(trail, report, h)
    }
}

/// Teams that meet.
#[derive(Drop)]
pub struct Cup {
    pub teams: Vec<Team>,
    pub winner: Option<Team>,
}

impl Stated for Cup {
    type Context = League;

    ghost visits = { λ v ctx.
        field "teams" (each (λ x. ⟦<Team as Stated>⟧.visits x ctx) (slice v.teams))
        and field "winner" (if_some (λ x. ⟦<Team as Stated>⟧.visits x ctx) v.winner) };
}

impl Validate for Cup {
    fn validate_into<'a, H: I18n>(
        &'a self,
        ctx: &League,
        trail: &mut Trail<'a>,
        report: &mut Report,
        h: &H,
    ) -> Result<(), AllocError> {
        let Self { teams, winner } = self;
        (
            Field("teams", teams, Each(Dive(ctx))),
            Field("winner", winner, IfSome(Dive(ctx))),
        )
            .visit(trail, report, h)
    }
}
