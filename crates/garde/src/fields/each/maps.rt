//! A check of each value of a map, under the component of its key.
ghost use Rattle.garde_report.specs.Part.{part};
ghost use Rattle.garde.specs.Visits.{entries, entries_in_any_order};

use super::Each;
use crate::fields::check::Check;
use crate::fields::each::loops::check_entries;
use garde_i18n::I18n;
use garde_report::{PathComponentKind, Report, Trail};
use std::alloc::AllocError;
use std::collections::{BTreeMap, HashMap};
use std::hash::{BuildHasher, Hash};

/// Each value in the order of the keys, under its key.
impl<'a, K: Ord + PathComponentKind, V, C: Check<'a, V>> Check<'a, BTreeMap<K, V>> for Each<C> {
    ghost visits = { λ each v.
        entries (λ k. part K.kind (K.text k)) (λ x. C.visits each.0 x) v.entries };

    fn check<H: I18n>(
        &self,
        value: &'a BTreeMap<K, V>,
        trail: &mut Trail<'a>,
        report: &mut Report,
        h: &H,
    ) -> Result<(), AllocError> {
        let ascending = value.iter();
        check_entries(ascending, &self.0, trail, report, h)
    }
}

/// Each value once in some order, under its key.
impl<'a, K: Eq + Hash + PathComponentKind, V, S: BuildHasher, C: Check<'a, V>> Check<
    'a,
    HashMap<K, V, S>,
> for Each<C> {
    ghost visits = { λ each v.
        entries_in_any_order (λ k. part K.kind (K.text k)) (λ x. C.visits each.0 x) v.entries };

    fn check<H: I18n>(
        &self,
        value: &'a HashMap<K, V, S>,
        trail: &mut Trail<'a>,
        report: &mut Report,
        h: &H,
    ) -> Result<(), AllocError> {
        let some_order = value.iter();
        check_entries(some_order, &self.0, trail, report, h)
    }
}
