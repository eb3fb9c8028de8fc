//! Numbers with a fraction under rules: the whole report of each body, or the number.

use super::told::{Case, check};
use garde::DefaultI18n;
use garde::fields::Is;
use garde_schema::{DecimalMultiple, DecimalNumber, decimal_range, read};
use garde_tape::Tree;
use std::alloc::{AllocError, Global};

/// A price from 0.5 to 99.95, which is a multiple of 0.05.
pub fn price(alloc: Global, tree: &Tree<'_, '_>) -> Result<String, AllocError> {
    let range = decimal_range!(min = "0.5", max = "99.95");
    let form = DecimalNumber((Is(range), Is(DecimalMultiple("0.05"))));
    match read(alloc, &form, tree, &DefaultI18n) {
        Ok(price) => price.to_string(alloc),
        Err(error) => error.to_string(alloc),
    }
}

const LOWER: &str = "lower than 0.5\n";

const GREATER: &str = "greater than 99.95\n";

const UNEVEN: &str = "not a multiple of 0.05\n";

const NONE: &str = "not a number\n";

const PRICES: &[(&str, &str)] = &[
    ("0.5", "0.5"),
    ("5e-1", "5e-1"),
    ("99.95", "99.95"),
    ("7", "7"),
    ("0.45", LOWER),
    ("-0", LOWER),
    ("-1.5", LOWER),
    ("100", GREATER),
    ("1e400", GREATER),
    ("0.51", UNEVEN),
    ("0.50000000000000000000000000000000000005", UNEVEN),
    ("1e18446744073709551616", NONE),
    ("\"7\"", NONE),
    ("null", NONE),
];

#[test]
fn reads_numbers_with_a_fraction(rt: HostRuntime) {
    for (body, expected) in PRICES {
        check(&rt, rt.alloc(), &Case::Price, body.as_bytes(), expected);
    }
}
