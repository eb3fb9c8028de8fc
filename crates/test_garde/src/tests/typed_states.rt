//! Values before and after they are validated.
use super::told::{reads, shows};
use super::{OrEnd, user_and_none};
use crate::tests::span::Span;
use garde::validate::{IntoValidError, Unvalidated, Valid};
use std::alloc::Global;
use std::process::Abort;

// The list of a valid user and of none.
#[test]
fn a_valid_value_is_handed_on(rt: HostRuntime) {
    let users = Unvalidated::new(user_and_none(&rt, rt.alloc(), "test"));
    let valid = users.validate(rt.alloc()).or_end(&rt);
    let shown = "[Some(User { username: \"test\" }), None]";
    let count = valid.len();
    assert!(rt; count == 2 && shows(rt.alloc(), &valid.into_inner(), shown) == Ok(true));
}

#[test]
fn a_value_with_faults_leaves_its_report(rt: HostRuntime) {
    let alloc = rt.alloc();
    let text = "[0].username: not ascii\n[0].username: length is lower than 3\n";
    let users = Unvalidated::new(user_and_none(&rt, alloc, "é"));
    let answer = users.validate_with(alloc, &());
    assert!(rt;
        matches!(&answer, Err(IntoValidError::Report(report))
            if reads(alloc, report, text) == Ok(true))
    );
}

/// A copy of a valid span.
fn valid_again(rt: &impl Abort, alloc: Global, span: Unvalidated<Span>) -> Valid<Span> {
    let valid = span.validate(alloc).or_end(rt);
    Valid::clone(&valid).or_end(rt)
}

// A span before it is validated, its copy afterwards, the empty span, and one that ends before it
// begins.
#[test]
fn states_are_copied_and_shown(rt: HostRuntime) {
    let alloc = rt.alloc();
    let span = Span { from: 2, to: 5 };
    let again = valid_again(&rt, alloc, Unvalidated::from(span));
    let empty: Unvalidated<Span> = Unvalidated::default();
    let none = valid_again(&rt, alloc, empty.clone().or_end(&rt));
    let backwards = Span { from: 5, to: 2 };
    let want = IntoValidError::Memory(Unvalidated::new(backwards));
    assert!(rt;
        shows(alloc, &Unvalidated::from(span), "Span { from: 2, to: 5 }") == Ok(true)
            && shows(alloc, &again, "Valid(Span { from: 2, to: 5 })") == Ok(true)
            && none.to == 0
            && shows(alloc, &want, "Memory(Span { from: 5, to: 2 })") == Ok(true)
            && reads(alloc, &want, "out of memory") == Ok(true)
            && matches!(
                &Unvalidated::new(backwards).validate_with(alloc, &()),
                Err(IntoValidError::Report(_))
            )
    );
}
