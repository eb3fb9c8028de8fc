//! A list that is checked in two parts, each on a trail of its own and into a report of its own.
ghost use Rattle.std.specs.Prelude.{◌≡◌, ◌+◌, ◌<◌, ◌^◌, [], ◌++◌, length, IfOk};
ghost use Rattle.std.specs.List.{enumerate_from};
ghost use Rattle.garde.specs.Fields.{each, each_value, index_part};
ghost use Rattle.garde.specs.Tree.{Tree, flat};
ghost use Rattle.garde.specs.Words.{default_text};

use super::user_of;
use crate::tests::OrEnd;
use crate::tests::told::{reads, tells_all};
use crate::tests::user::User;
use garde::fields::{Dive, check_part};
use garde::laws::items_in_parts;
use garde::{DefaultI18n, Report, Stated, Trail, Validate};
use std::alloc::{AllocError, Global};

/// The report of a part, whose first user has the index `first` in the whole list.
fn report_of_part(alloc: Global, first: usize, part: &[User]) -> Result<Report, AllocError>
    requires { first + length part.now < 2 ^ 64 }
    ensures { IfOk result (λ report. (t : Tree)
        × (each_value index_part (λ user. ⟦<User as Stated>⟧.visits user tt) (enumerate_from first part.now)).trees t
        × (report ≡ flat default_text [] t)) }
{
    let mut trail = Trail::new(alloc);
    let mut report = Report::new(alloc);
    check_part(
        first,
        part,
        &Dive(&()),
        &mut trail,
        &mut report,
        &DefaultI18n,
    )?;
    Ok(report)
}

/// The faults of the first report, and then those of the second.
fn joined(first: Report, second: Report) -> Result<Report, AllocError>
    ensures { IfOk result (λ report. report ≡ first ++ second) }
{
    let mut both = first;
    for (path, error) in second.into_inner() {
        both.append(path, error)?;
    }
    Ok(both)
}

/// The report of the list that two parts are, one after the other: both reports joined.
fn report_of_parts(alloc: Global, first: &[User], second: &[User]) -> Result<Report, AllocError>
    requires { length first.now + length second.now < 2 ^ 64 }
    ensures { IfOk result (λ report. (t : Tree)
        × (each (λ user. ⟦<User as Stated>⟧.visits user tt) (first.now ++ second.now)).trees t
        × (report ≡ flat default_text [] t)) }
{
    items_in_parts::<User, Dive<'_, ()>>();
    let one = report_of_part(alloc, 0, first)?;
    let other = report_of_part(alloc, first.len(), second)?;
    joined(one, other)
}

/// Whether a list that is cut here has this report, as a text.
fn is_told_in_parts(alloc: Global, users: &Vec<User>, cut: usize, text: &str) -> bool {
    let Some((first, second)) = users.split_at_checked(cut) else {
        return false;
    };
    match report_of_parts(alloc, first, second) {
        Ok(report) => reads(alloc, &report, text) == Ok(true),
        Err(AllocError) => false,
    }
}

// Four users, of whom the second, the third and the last have faults.
#[test]
fn parts_have_the_report_of_the_whole(rt: HostRuntime) {
    let alloc = rt.alloc();
    let mut users = Vec::new(alloc);
    for name in ["test", "é", "ab", "a name of more than 25 bytes"] {
        users.push(user_of(&rt, alloc, name)).or_end(&rt);
    }
    let text =
        "[1].username: not ascii\n[1].username: length is lower than 3\n[2].username: length is lower than 3\n[3].username: length is greater than 25\n";
    assert!(rt;
        tells_all(alloc, users.validate(alloc), text)
            && is_told_in_parts(alloc, &users, 0, text)
            && is_told_in_parts(alloc, &users, 1, text)
            && is_told_in_parts(alloc, &users, 2, text)
            && is_told_in_parts(alloc, &users, 3, text)
            && is_told_in_parts(alloc, &users, 4, text)
    );
}
