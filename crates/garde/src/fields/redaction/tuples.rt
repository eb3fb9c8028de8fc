//! Tuples of rules, of two to six.
ghost use Rattle.std.specs.Prelude.{◌++◌};
ghost use Rattle.garde.specs.RedactionLaws.{finds_and};

use super::DiscreetRules;

/// One, and then the other.
impl<T, A: DiscreetRules<T>, B: DiscreetRules<T>> DiscreetRules<T> for (A, B) {
    ghost may_find = { λ all. A.may_find all.0 ++ B.may_find all.1 };

    ghost discreet = { λ all v. finds_and (A.discreet all.0 v) (B.discreet all.1 v) };
}

/// Three in turn.
impl<T, A: DiscreetRules<T>, B: DiscreetRules<T>, C: DiscreetRules<T>> DiscreetRules<T>
    for (A, B, C) {
    ghost may_find = { λ all. A.may_find all.0 ++ (B.may_find all.1 ++ C.may_find all.2) };

    ghost discreet = { λ all v. finds_and (A.discreet all.0 v) (finds_and (B.discreet all.1 v) (C.discreet all.2 v)) };
}

/// Four in turn.
impl<
    T,
    A: DiscreetRules<T>,
    B: DiscreetRules<T>,
    C: DiscreetRules<T>,
    D: DiscreetRules<T>,
> DiscreetRules<T> for (A, B, C, D) {
    ghost may_find = { λ all. A.may_find all.0 ++ (B.may_find all.1 ++ (C.may_find all.2 ++ D.may_find all.3)) };

    ghost discreet = { λ all v. finds_and (A.discreet all.0 v) (finds_and (B.discreet all.1 v) (finds_and (C.discreet all.2 v) (D.discreet all.3 v))) };
}

/// Five in turn.
impl<
    T,
    A: DiscreetRules<T>,
    B: DiscreetRules<T>,
    C: DiscreetRules<T>,
    D: DiscreetRules<T>,
    E: DiscreetRules<T>,
> DiscreetRules<T> for (A, B, C, D, E) {
    ghost may_find = { λ all. A.may_find all.0 ++ (B.may_find all.1 ++ (C.may_find all.2 ++ (D.may_find all.3 ++ E.may_find all.4))) };

    ghost discreet = { λ all v. finds_and (A.discreet all.0 v) (finds_and (B.discreet all.1 v) (finds_and (C.discreet all.2 v) (finds_and (D.discreet all.3 v) (E.discreet all.4 v)))) };
}

/// Six in turn.
impl<
    T,
    A: DiscreetRules<T>,
    B: DiscreetRules<T>,
    C: DiscreetRules<T>,
    D: DiscreetRules<T>,
    E: DiscreetRules<T>,
    F: DiscreetRules<T>,
> DiscreetRules<T> for (A, B, C, D, E, F) {
    ghost may_find = { λ all. A.may_find all.0 ++ (B.may_find all.1 ++ (C.may_find all.2 ++ (D.may_find all.3 ++ (E.may_find all.4 ++ F.may_find all.5)))) };

    ghost discreet = { λ all v. finds_and (A.discreet all.0 v) (finds_and (B.discreet all.1 v) (finds_and (C.discreet all.2 v) (finds_and (D.discreet all.3 v) (finds_and (E.discreet all.4 v) (F.discreet all.5 v))))) };
}
