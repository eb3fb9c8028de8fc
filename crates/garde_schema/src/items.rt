//! The values of a list's items.
ghost use Rattle.std.specs.Prelude.{◌≡◌, [], ◌∷◌, ◌++◌, ◌==◌, length, is_ok, if◌then◌else◌, IfOk};
ghost use Rattle.garde.specs.Fields.{unique_text};
ghost use Rattle.garde.specs.Redaction.{AsksOnly, own_fault};
ghost use Rattle.garde.specs.RedactionLaws.{finds_items, finds_unique};
ghost use Rattle.garde.specs.Visits.{items};
ghost use Rattle.garde_schema.specs.Lists.{with_last};

use garde::fields::{Check, DiscreetRules, Each, Listed, Rules, Same, Unique};
use garde::rules::length::HasSimpleLength;
use garde::{I18n, Report, Trail};
use std::alloc::{AllocError, Global};
use std::marker::Model;

/// The values of a list's items, in their order. A contract sees the list of them. It lends them as a
/// slice.
#[derive(Debug, Drop)]
pub struct Items<T>(Vec<T>);

impl<T> Model for Items<T> {
    ghost use Rattle.std.specs.Prelude.{List};
    ghost use Rattle.std.specs.Coded.{coded_list};

    ghost Value = { List T };

    ghost coded = { coded_list T.code };

    ghost view = { λ items. items.0.items };
}

impl<T> Items<T> {
    // No values. It allocates nothing.
    pub(crate) fn new(alloc: Global) -> Items<T>
        ensures { result ≡ [] }
    {
        Items(Vec::new(alloc))
    }

    /// The values.
    pub fn as_slice(&self) -> &[T]
        ensures { result.now ≡ self.now }
    {
        self.0.as_slice()
    }

    /// How many there are.
    pub fn len(&self) -> usize
        ensures { result ≡ length self.now }
    {
        self.0.len()
    }

    /// Whether there is none.
    pub fn is_empty(&self) -> bool
        ensures { result ≡ (length self.now == 0) }
    {
        self.0.is_empty()
    }

    /// The values, as a vector.
    pub fn into_vec(self) -> Vec<T>
        ensures { result.items ≡ self }
    {
        self.0
    }
}

impl<T: Drop> Items<T> {
    // Appends a value.
    pub(crate) fn push(&mut self, value: T) -> Result<(), AllocError>
        ensures { self.new ≡ (if is_ok result then self.old ++ value ∷ [] else self.old) }
    {
        self.0.push(value)?;
        Ok(())
    }
}

/// How many there are.
impl<T> HasSimpleLength for Items<T> {
    ghost simple_len = { length };

    fn length(&self) -> usize {
        self.0.len()
    }
}

/// The values.
impl<T> Listed for Items<T> {
    type Item = T;

    ghost items = { λ v. v };

    #[inline]
    fn listed(&self) -> &[T] {
        self.as_slice()
    }
}

/// Each value in order, under its index.
impl<'a, T, C: Check<'a, T>> Check<'a, Items<T>> for Each<C> {
    ghost visits = { λ each values. items (λ x. C.visits each.0 x) values };

    fn check<H: I18n>(
        &self,
        value: &'a Items<T>,
        trail: &mut Trail<'a>,
        report: &mut Report,
        h: &H,
    ) -> Result<(), AllocError> {
        self.check(&value.0, trail, report, h)
    }
}

/// Each value in order, under its index.
impl<T, R: Rules<T>> Rules<Items<T>> for Each<R> {
    ghost asks = { λ each values. items (λ x. R.asks each.0 x) values };

    fn ask<'a, H: I18n>(
        &self,
        value: &Items<T>,
        trail: &mut Trail<'a>,
        report: &mut Report,
        h: &H,
    ) -> Result<(), AllocError> {
        self.ask(&value.as_slice(), trail, report, h)
    }
}

/// No two values are the same.
impl<T, S: Same<T>> Rules<Items<T>> for Unique<'_, S> {
    ghost asks = { λ rules values. unique_text rules.0.now (λ x y. S.same rules.1 x y) values };

    fn ask<'a, H: I18n>(
        &self,
        value: &Items<T>,
        trail: &mut Trail<'a>,
        report: &mut Report,
        h: &H,
    ) -> Result<(), AllocError> {
        self.ask(&value.as_slice(), trail, report, h)
    }
}

impl<T, R: DiscreetRules<T>> DiscreetRules<Items<T>> for Each<R> {
    ghost may_find = { λ each. R.may_find each.0 };

    ghost discreet = { λ each values.
        finds_items (R.may_find each.0) (λ x. R.asks each.0 x) values (λ x. R.discreet each.0 x) };
}

impl<T, S: Same<T>> DiscreetRules<Items<T>> for Unique<'_, S> {
    ghost may_find = { λ rules. own_fault rules.0.now };

    ghost discreet = { λ rules values.
        finds_unique rules.0.now (λ x y. S.same rules.1 x y) values };
}

// The values with one more, where all are there.
#[inline(always)]
pub(crate) fn add<T: Drop>(
    values: Option<Items<T>>,
    value: Option<T>,
) -> Result<Option<Items<T>>, AllocError>
    ensures { IfOk result (λ out. out ≡ with_last values value) }
{
    match (values, value) {
        (Some(mut values), Some(value)) => {
            values.push(value)?;
            Ok(Some(values))
        }
        _ => Ok(None),
    }
}
