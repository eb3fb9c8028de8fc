//! Whole numbers of 128 bits under a rule: the whole report of each body, or the number.

use super::told::{Case, check, told};
use garde::fields::Is;
use garde::range;
use garde_schema::{I128, U128, Whole};
use garde_tape::Tree;
use std::alloc::{AllocError, Global};

/// A number without a sign, which is at least 7, or one with a sign, which is at most 7.
pub fn number(alloc: Global, tree: &Tree<'_, '_>, signed: bool) -> Result<String, AllocError> {
    if signed {
        told(alloc, tree, &Whole(I128, Is(range!(max = 7))))
    } else {
        told(alloc, tree, &Whole(U128, Is(range!(min = 7))))
    }
}

const ABOVE: &str = "out of range: 0 to 340282366920938463463374607431768211455\n";

const OUTSIDE: &str =
    "out of range: -170141183460469231731687303715884105728 to 170141183460469231731687303715884105727\n";

const LOWER: &str = "lower than 7\n";

const GREATER: &str = "greater than 7\n";

const NONE: &str = "not a whole number\n";

const NUMBERS: &[(&str, &str, &str)] = &[
    ("7", "7", "7"),
    ("0", LOWER, "0"),
    ("-1", LOWER, "-1"),
    ("18446744073709551616", "18446744073709551616", GREATER),
    (
        "340282366920938463463374607431768211455",
        "340282366920938463463374607431768211455",
        GREATER,
    ),
    ("340282366920938463463374607431768211456", ABOVE, GREATER),
    ("3402823669209384634633746074317682114550", ABOVE, GREATER),
    (
        "170141183460469231731687303715884105727",
        "170141183460469231731687303715884105727",
        GREATER,
    ),
    (
        "170141183460469231731687303715884105728",
        "170141183460469231731687303715884105728",
        GREATER,
    ),
    (
        "-170141183460469231731687303715884105728",
        LOWER,
        "-170141183460469231731687303715884105728",
    ),
    ("-170141183460469231731687303715884105729", LOWER, OUTSIDE),
    ("-340282366920938463463374607431768211457", LOWER, OUTSIDE),
    ("-0", NONE, NONE),
    ("18.0", NONE, NONE),
    ("1e2", NONE, NONE),
    ("-1.5", NONE, NONE),
    ("\"7\"", NONE, NONE),
    ("null", NONE, NONE),
];

#[test]
fn reads_whole_numbers_of_128_bits(rt: HostRuntime) {
    for (body, unsigned, signed) in NUMBERS {
        let (alloc, bytes) = (rt.alloc(), body.as_bytes());
        check(&rt, alloc, &Case::Wide(false), bytes, unsigned);
        check(&rt, alloc, &Case::Wide(true), bytes, signed);
    }
}
