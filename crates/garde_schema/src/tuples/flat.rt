//! Tuples of more than two values, which are read as pairs in pairs.
ghost use Rattle.std.specs.Prelude.{◌≡◌, IfOk, OnOk, option_map};
ghost use Rattle.garde.specs.Visits.{Visited};
ghost use Rattle.garde_schema.specs.Flat.{flat3, flat4, flat5, flat6};
ghost use Rattle.garde_schema.specs.Forms.{forget, Sound};

use crate::form::Members;
use crate::handler::FormI18n;
use garde::{I18n, Report, Trail};
use garde_tape::Tree;
use std::alloc::AllocError;

/// A tuple whose values lie in pairs as well.
pub(crate) trait Flat {
    /// The first, and a pair of the others in turn.
    type Nested;

    /// The tuple of these pairs.
    ghost flat: { Self.Nested → Self };

    /// The pairs of this tuple.
    ghost nested: { Self → Self.Nested };

    /// The tuple of these pairs.
    fn flat(pairs: Self::Nested) -> Self
        ensures flat { result ≡ flat pairs }
        ensures nested { nested result ≡ pairs };
}

// Reads members that are nested in pairs, as a tuple.
pub(crate) fn read_nested<
    't,
    'a,
    T: Flat + Drop,
    M: Members<'a, Out = T::Nested>,
    H: I18n + FormI18n,
>(
    members: &M,
    object: &Tree<'t, 'a>,
    trail: &mut Trail<'a>,
    report: &mut Report,
    h: &H,
) -> Result<Option<T>, AllocError>
    ensures answer { Visited (M.visits members.now (H.form_text h.now) object.now) (H.text h.now)
        trail.old trail.new report.old report.new (forget result) }
    ensures value { IfOk result (λ out. out ≡ option_map (λ v. T.flat v) (M.value members.now object.now)) }
    ensures sound { OnOk result (Sound (M.visits members.now (H.form_text h.now) object.now)
        (λ out. M.keeps members.now (T.nested out))
        (option_map (λ v. T.flat v) (M.value members.now object.now))) }
{
    match members.read_members(object, trail, report, h) {
        Ok(Some(pairs)) => Ok(Some(T::flat(pairs))),
        Ok(None) => Ok(None),
        Err(refused) => Err(refused),
    }
}

impl<A: Drop, B: Drop, C: Drop> Flat for (A, B, C) {
    type Nested = (A, (B, C));

    ghost flat = { λ v. flat3 v };

    ghost nested = { λ v. (v.0, (v.1, v.2)) };

    fn flat(parts: (A, (B, C))) -> (A, B, C) {
        let (a, (b, c)) = parts;
        (a, b, c)
    }
}

impl<A: Drop, B: Drop, C: Drop, D: Drop> Flat for (A, B, C, D) {
    type Nested = (A, B, (C, D));

    ghost flat = { λ v. flat4 v };

    ghost nested = { λ v. (v.0, v.1, (v.2, v.3)) };

    fn flat(parts: (A, B, (C, D))) -> (A, B, C, D) {
        let (a, b, (c, d)) = parts;
        (a, b, c, d)
    }
}

impl<A: Drop, B: Drop, C: Drop, D: Drop, E: Drop> Flat for (A, B, C, D, E) {
    type Nested = (A, B, C, (D, E));

    ghost flat = { λ v. flat5 v };

    ghost nested = { λ v. (v.0, v.1, v.2, (v.3, v.4)) };

    fn flat(parts: (A, B, C, (D, E))) -> (A, B, C, D, E) {
        let (a, b, c, (d, e)) = parts;
        (a, b, c, d, e)
    }
}

impl<A: Drop, B: Drop, C: Drop, D: Drop, E: Drop, F: Drop> Flat for (A, B, C, D, E, F) {
    type Nested = (A, B, C, (D, E, F));

    ghost flat = { λ v. flat6 v };

    ghost nested = { λ v. (v.0, v.1, v.2, (v.3, v.4, v.5)) };

    fn flat(parts: (A, B, C, (D, E, F))) -> (A, B, C, D, E, F) {
        let (a, b, c, (d, e, f)) = parts;
        (a, b, c, d, e, f)
    }
}
