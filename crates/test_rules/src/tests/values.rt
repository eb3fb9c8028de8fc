//! Tests of the rules of other values than texts, as values.
use super::finds;
use crate::tests::OrEnd;
use garde_rules::values::{Matches, Range, Required};

#[test]
fn finds_the_same_in_other_values(rt: HostRuntime) {
    let alloc = rt.alloc();
    let owned = String::from_str(alloc, "b").or_end(&rt);
    let same = Matches {
        field: "password",
        other: &owned,
    };
    let different = Matches {
        field: "password",
        other: &"a",
    };
    let adult = Range {
        min: Some(18),
        max: None,
    };
    let few = Range {
        min: None,
        max: Some(10),
    };
    assert!(rt;
        finds(alloc, &same, &owned, None)
            && finds(
                alloc,
                &different,
                &"b",
                Some("does not match password field")
            )
            && finds(alloc, &adult, &17u8, Some("lower than 18"))
            && finds(alloc, &few, &100i32, Some("greater than 10"))
            && finds(alloc, &Required, &Some(1u8), None)
    );
}
