//! Tuples of one to six members, and more members as tuples in tuples: the value of each, and the whole
//! report of a body in which every second member has a fault.

use super::told::{Case, check, told};
use garde::fields::Is;
use garde::{DefaultI18n, all, parts, range};
use garde_schema::{Closed, Member, Members, Object, U8, Whole, read};
use garde_tape::{Scratch, Tree, parse_bytes};
use std::alloc::{AllocError, Global};
use std::fmt::Debug;

// What is told of a tree with these members and no other.
fn told_of<'a, M: Members<'a> + Copy>(
    alloc: Global,
    tree: &Tree<'_, 'a>,
    members: M,
) -> Result<String, AllocError>
where
    M::Out: Debug,
{
    told(alloc, tree, &Object(Closed(members)))
}

// What is told of a tree with so many of these members and no other: the first one to six, seven, the
// last two of them in a tuple of their own, twelve or sixteen.
fn told_of_members<'a, M: Members<'a> + Copy>(
    alloc: Global,
    tree: &Tree<'_, 'a>,
    size: usize,
    members: &[M; 16],
) -> Result<String, AllocError>
where
    M::Out: Debug,
{
    let [a, b, c, d, e, f, g, i, j, k, l, m, n, o, p, q] = *members;
    match size {
        1 => told_of(alloc, tree, (a,)),
        2 => told_of(alloc, tree, (a, b)),
        3 => told_of(alloc, tree, (a, b, c)),
        4 => told_of(alloc, tree, (a, b, c, d)),
        5 => told_of(alloc, tree, (a, b, c, d, e)),
        6 => told_of(alloc, tree, (a, b, c, d, e, f)),
        7 => told_of(alloc, tree, (a, b, c, d, e, (f, g))),
        12 => told_of(alloc, tree, all!(a, b, c, d, e, f, g, i, j, k, l, m)),
        _ => {
            let sixteen = all!(a, b, c, d, e, f, g, i, j, k, l, m, n, o, p, q);
            told_of(alloc, tree, sixteen)
        }
    }
}

// A member of this form under each of these names.
macro_rules! members {
    ($form:ident: $($name:literal)+) => {
        [$(Member($name, $form)),+]
    };
}

/// What a tree with so many numbers, and no other member, reads as.
pub fn told_by(alloc: Global, tree: &Tree<'_, '_>, size: usize) -> Result<String, AllocError> {
    let number = Whole(U8, Is(range!(max = 20)));
    let members = members!(number: "a" "b" "c" "d" "e" "f" "g" "h" "i" "j" "k" "l" "m" "n" "o" "p");
    told_of_members(alloc, tree, size, &members)
}

// How many members there are, a body, and what it reads as.
static TUPLES: [(Case, &str, &str); 18] = [
    (Case::Tuples(1), "{\"a\":1}", "(1,)"),
    (Case::Tuples(1), "{\"a\":1,\"z\":0}", "z: not known here\n"),
    (Case::Tuples(2), "{\"b\":2,\"a\":1}", "(1, 2)"),
    (
        Case::Tuples(2),
        "{\"a\":1,\"b\":true,\"z\":0}",
        "b: not a whole number\nz: not known here\n",
    ),
    (Case::Tuples(3), "{\"c\":3,\"b\":2,\"a\":1}", "(1, 2, 3)"),
    (
        Case::Tuples(3),
        "{\"a\":1,\"b\":true,\"c\":3,\"z\":0}",
        "b: not a whole number\nz: not known here\n",
    ),
    (
        Case::Tuples(4),
        "{\"d\":4,\"c\":3,\"b\":2,\"a\":1}",
        "(1, 2, 3, 4)",
    ),
    (
        Case::Tuples(4),
        "{\"a\":1,\"b\":true,\"c\":3,\"d\":21,\"z\":0}",
        "b: not a whole number\nd: greater than 20\nz: not known here\n",
    ),
    (
        Case::Tuples(5),
        "{\"e\":5,\"d\":4,\"c\":3,\"b\":2,\"a\":1}",
        "(1, 2, 3, 4, 5)",
    ),
    (
        Case::Tuples(5),
        "{\"a\":1,\"b\":true,\"c\":3,\"d\":21,\"e\":5,\"z\":0}",
        "b: not a whole number\nd: greater than 20\nz: not known here\n",
    ),
    (
        Case::Tuples(6),
        "{\"f\":6,\"e\":5,\"d\":4,\"c\":3,\"b\":2,\"a\":1}",
        "(1, 2, 3, 4, 5, 6)",
    ),
    (
        Case::Tuples(6),
        "{\"a\":1,\"b\":true,\"c\":3,\"d\":21,\"e\":5,\"f\":\"1\",\"z\":0}",
        "b: not a whole number\nd: greater than 20\nf: not a whole number\nz: not known here\n",
    ),
    (
        Case::Tuples(7),
        "{\"g\":7,\"f\":6,\"e\":5,\"d\":4,\"c\":3,\"b\":2,\"a\":1}",
        "(1, 2, 3, 4, 5, (6, 7))",
    ),
    (
        Case::Tuples(7),
        "{\"a\":1,\"b\":true,\"c\":3,\"d\":21,\"e\":5,\"f\":\"1\",\"g\":7,\"z\":0}",
        "b: not a whole number\nd: greater than 20\nf: not a whole number\nz: not known here\n",
    ),
    (
        Case::Tuples(12),
        "{\"l\":12,\"k\":11,\"j\":10,\"i\":9,\"h\":8,\"g\":7,\"f\":6,\"e\":5,\"d\":4,\"c\":3,\"b\":2,\"a\":1}",
        "(1, 2, 3, 4, 5, (6, 7, 8, 9, 10, (11, 12)))",
    ),
    (
        Case::Tuples(12),
        "{\"a\":1,\"b\":true,\"c\":3,\"d\":21,\"e\":5,\"f\":\"1\",\"g\":7,\"h\":256,\"i\":9,\"j\":1.0,\"k\":11,\"l\":-1,\"z\":0}",
        "b: not a whole number\nd: greater than 20\nf: not a whole number\nh: greater than 20\nj: not a whole number\nl: out of range: 0 to 255\nz: not known here\n",
    ),
    (
        Case::Tuples(16),
        "{\"p\":16,\"o\":15,\"n\":14,\"m\":13,\"l\":12,\"k\":11,\"j\":10,\"i\":9,\"h\":8,\"g\":7,\"f\":6,\"e\":5,\"d\":4,\"c\":3,\"b\":2,\"a\":1}",
        "(1, 2, 3, 4, 5, (6, 7, 8, 9, 10, (11, 12, 13, 14, 15, 16)))",
    ),
    (
        Case::Tuples(16),
        "{\"p\":256,\"o\":15,\"n\":1.0,\"m\":13,\"l\":12,\"k\":11,\"j\":10,\"i\":9,\"h\":8,\"g\":7,\"f\":6,\"e\":5,\"d\":4,\"c\":3,\"b\":[],\"a\":1,\"q\":0}",
        "b: not a whole number\nn: not a whole number\np: greater than 20\nq: not known here\n",
    ),
];

#[test]
fn reads_tuples_of_members(rt: HostRuntime) {
    for (case, body, expected) in &TUPLES {
        check(&rt, rt.alloc(), case, body.as_bytes(), expected);
    }
}

// Whether sixteen values are taken out of tuples in tuples, in their order.
fn are_taken_out() -> bool {
    let parts!(a, b, c, d, e, f, g, h, i, j, k, l, m, n, o, p) = all!(
        1u8, 2, 3, 4, 5, 6, 7, 8, 9, 10, 11, 12, 13, 14, 15, 16
    );
    [a, b, c, d, e, f, g, h, i, j, k, l, m, n, o, p]
        == [1, 2, 3, 4, 5, 6, 7, 8, 9, 10, 11, 12, 13, 14, 15, 16]
}

// Whether the numbers from 1 to 7 are taken out of what a tree reads as.
fn are_read(alloc: Global, tree: &Tree<'_, '_>) -> bool {
    let number = Whole(U8, ());
    let members = members!(number: "a" "b" "c" "d" "e" "f" "g");
    let [a, b, c, d, e, f, g] = members;
    match read(
        alloc,
        &Object(all!(a, b, c, d, e, f, g)),
        tree,
        &DefaultI18n,
    ) {
        Ok(parts!(a, b, c, d, e, f, g)) => [a, b, c, d, e, f, g] == [1, 2, 3, 4, 5, 6, 7],
        Err(_) => false,
    }
}

// The same of a body.
fn are_read_of(alloc: Global, body: &[u8]) -> bool {
    let mut scratch = Scratch::new(alloc);
    match parse_bytes(alloc, body, &mut scratch) {
        Ok(tape) => are_read(alloc, &Tree::root(&tape)),
        Err(_) => false,
    }
}

const SEVEN: &[u8] = b"{\"g\":7,\"f\":6,\"e\":5,\"d\":4,\"c\":3,\"b\":2,\"a\":1}";

#[test]
fn takes_values_out_of_tuples_in_tuples(rt: HostRuntime) {
    assert!(rt; are_taken_out() && are_read_of(rt.alloc(), SEVEN));
}
