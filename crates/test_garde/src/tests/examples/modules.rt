//! Each module that `garde` passes on from the crates below it, and `garde_json`.
use super::login;
use crate::tests::OrEnd;
use crate::tests::told::reads;
use example_types::login::Login;
use garde::error::{Component, Kind, PathComponentKind};
use garde::i18n::{DefaultI18n, IpKind};
use garde::rc_list::List;
use garde::rules::ip;
use garde::trail::Trail;
use garde::validate::Validate;
use garde::{Error, Path, Report, RuleError, Unvalidated, Valid, ValidateError, select, with_i18n};
use garde_json::{report_from_json, report_to_json};
use std::alloc::Global;
use std::process::Abort;

/// A report of one fault.
fn report(rt: &impl Abort, alloc: Global) -> Report {
    let mut report = Report::new(alloc);
    let path = Path::new(alloc, "a").or_end(rt);
    report
        .append(path, Error::new(alloc, "weak").or_end(rt))
        .or_end(rt);
    report
}

/// Whether a trail onto which this component is pushed gives its path.
fn is_trail_at(rt: &impl Abort, alloc: Global, key: &str) -> bool {
    let mut trail = Trail::new(alloc);
    trail.push(Component::key(key)).or_end(rt);
    trail.path().or_end(rt) == Path::new(alloc, key).or_end(rt)
}

#[test]
fn lists_and_trails(rt: HostRuntime) {
    assert!(rt;
        List::new().append(rt.alloc(), 'a').or_end(&rt).len() == 1
            && is_trail_at(&rt, rt.alloc(), "a")
            && usize::component_kind() == Kind::Index
    );
}

/// Whether a report that is read back from its tree prints this text.
fn is_read_back(rt: &impl Abort, alloc: Global, report: &Report, text: &str) -> bool {
    let tree = report_to_json(alloc, report).or_end(rt);
    let back = report_from_json(alloc, &tree).or_end(rt);
    reads(alloc, &back, text) == Ok(true)
}

/// Whether a report has one message at and under a prefix, this one.
fn has_message(report: &Report, way: &[&str], text: &str) -> bool {
    let mut found = select(report, way);
    matches!(found.next(), Some(error) if error.message() == text) && found.next().is_none()
}

/// Whether an outcome is rejected with this message.
fn is_refused(outcome: garde::Result, message: &str) -> bool {
    matches!(&outcome, Err(error) if error.message() == message)
}

#[test]
fn reports_and_their_trees(rt: HostRuntime) {
    let report = report(&rt, rt.alloc());
    assert!(rt;
        is_read_back(&rt, rt.alloc(), &report, "a: weak\n")
            && has_message(&report, &["a"], "weak")
            && is_refused(Err(Error::new(rt.alloc(), "weak").or_end(&rt)), "weak")
    );
}

/// Whether a text that is no address is rejected with this message.
fn is_no_address(alloc: Global, text: &str, message: &str) -> bool {
    let answer: Result<(), RuleError> = with_i18n(
        DefaultI18n,
        |h| ip::apply(alloc, &text, (IpKind::V6,), h),
    );
    matches!(&answer, Err(RuleError::Fault(error)) if error.message() == message)
}

/// Whether the login of a password becomes a valid one, of this name.
fn is_valid(rt: &impl Abort, alloc: Global, password: &str, username: &str) -> bool {
    let made = Unvalidated::new(login(rt, alloc, "test", password));
    let valid: Valid<Login> = made.validate(alloc).or_end(rt);
    valid.username.as_str() == username
}

/// Whether the login of a password is rejected, and so many nodes are made for its report.
fn is_refused_on(rt: &impl Abort, alloc: Global, password: &str, nodes: usize) -> bool {
    let weak = login(rt, alloc, "test", password);
    let mut trail = Trail::new(alloc);
    let answer = weak.validate_on(&(), &mut trail, &DefaultI18n);
    matches!(answer, Err(ValidateError::Report(_))) && trail.nodes() == nodes
}

#[test]
fn a_login_becomes_a_valid_one(rt: HostRuntime) {
    assert!(rt;
        is_no_address(rt.alloc(), "::g", "not a valid IPv6 address")
            && is_valid(&rt, rt.alloc(), "not_a_very_good_password", "test")
            && is_refused_on(&rt, rt.alloc(), "weak", 1)
    );
}
