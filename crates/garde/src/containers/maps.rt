//! Maps, each value under the component of its key.
ghost use Rattle.garde_report.specs.Part.{part};
ghost use Rattle.garde.specs.Visits.{entries, entries_in_any_order};

use crate::fields::{Check, Dive, Each};
use crate::stated::Stated;
use crate::validate::Validate;
use garde_i18n::I18n;
use garde_report::{PathComponentKind, Report, Trail};
use std::alloc::AllocError;
use std::collections::{BTreeMap, HashMap};
use std::hash::{BuildHasher, Hash};

/// Each value in the order of the keys, under its key.
impl<K: Ord + PathComponentKind, V: Stated> Stated for BTreeMap<K, V> {
    type Context = V::Context;

    ghost visits = { λ v c. entries (λ k. part K.kind (K.text k)) (λ x. V.visits x c) v.entries };
}

impl<K: Ord + PathComponentKind, V: Validate> Validate for BTreeMap<K, V> {
    fn validate_into<'a, H: I18n>(
        &'a self,
        ctx: &V::Context,
        trail: &mut Trail<'a>,
        report: &mut Report,
        h: &H,
    ) -> Result<(), AllocError> {
        Each(Dive(ctx)).check(self, trail, report, h)
    }
}

/// Each value once in some order, under its key.
impl<K: Eq + Hash + PathComponentKind, V: Stated, S: BuildHasher> Stated for HashMap<K, V, S> {
    type Context = V::Context;

    ghost visits = { λ v c.
        entries_in_any_order (λ k. part K.kind (K.text k)) (λ x. V.visits x c) v.entries };
}

impl<K: Eq + Hash + PathComponentKind, V: Validate, S: BuildHasher> Validate for HashMap<K, V, S> {
    fn validate_into<'a, H: I18n>(
        &'a self,
        ctx: &V::Context,
        trail: &mut Trail<'a>,
        report: &mut Report,
        h: &H,
    ) -> Result<(), AllocError> {
        Each(Dive(ctx)).check(self, trail, report, h)
    }
}
