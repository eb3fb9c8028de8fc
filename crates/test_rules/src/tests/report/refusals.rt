//! What each error prints.

use crate::tests::{OrEnd, has_text};
use garde_json::JsonRefused;
use garde_report::rc_list::JoinError;
use garde_report::{Error, RuleError};
use std::alloc::Global;
use std::error;
use std::process::Abort;

/// Whether an error prints this text.
fn tells<E: error::Error>(rt: &impl Abort, alloc: Global, error: &E, text: &str) -> bool {
    has_text(rt, alloc, error, text)
}

#[test]
fn each_refusal_prints_its_reason(rt: HostRuntime) {
    let alloc = rt.alloc();
    let memory = "out of memory";
    let long = "a message that has more bytes than lie in the error itself";
    let fault = RuleError::Fault(Error::new(alloc, long).or_end(&rt));
    assert!(rt;
        tells(&rt, alloc, &JoinError::TooLong, "the list is full")
            && tells(&rt, alloc, &JoinError::Memory, memory)
            && tells(
                &rt,
                alloc,
                &JsonRefused::Form,
                "the tree is not a report or a path"
            )
            && tells(&rt, alloc, &JsonRefused::Memory, memory)
            && tells(&rt, alloc, &fault, long)
            && tells(&rt, alloc, &RuleError::Memory, memory)
    );
}
