//! Whole numbers.
ghost use Rattle.std.specs.Prelude.{◌≡◌, Bool, Option};
ghost use Rattle.json.specs.Json.{Json};
ghost use Rattle.garde.specs.Visits.{Known, Visited};
ghost use Rattle.garde_schema.specs.declared.fault.Integer.{Integer};
ghost use Rattle.garde_schema.specs.Whole.{is_negative, number_visits, other_visits};

mod signed;
mod unsigned;
mod wide;

use crate::fault::{FormFault, Integer, Wanted};
use crate::form::Form;
use crate::handler::FormI18n;
use crate::number_rules::NumberRules;
use crate::put::{put, with};
use garde::{I18n, Report, Trail};
use garde_tape::Tree;
pub use signed::{I8, I16, I32, I64, Isize};
use std::alloc::AllocError;
pub use unsigned::{U8, U16, U32, U64, Usize};
pub use wide::{I128, U128};

/// A type of whole numbers.
pub trait WholeType {
    /// Its numbers.
    type Number: Drop;

    /// Which type it is.
    ghost integer: { Self → Integer };

    /// The number of this type that a tree spells.
    ghost spelled: { Self → Json → Option Self.Number };

    /// Of the numbers beyond one end of the type, the number of the type that is nearest to them: the
    /// least of the type for those below it, and else the greatest.
    ghost nearest: { Self → Bool → Self.Number };

    /// Which type it is.
    fn integer(&self) -> Integer
        ensures { result ≡ integer self.now };

    /// The number of this type that a tree spells: by digits alone, perhaps behind a minus.
    fn spelled(&self, tree: &Tree<'_, '_>) -> Option<Self::Number>
        ensures { result ≡ spelled self.now tree.now };

    /// The number of this type that is nearest to the numbers below it, or above it.
    fn nearest(&self, below: bool) -> Self::Number
        ensures { result ≡ nearest self.now below };
}

// Puts what is wrong with a tree that is no number of the type: of a whole number the first bound of
// the rules that it is beyond, or else that the type does not hold it.
#[inline(never)]
fn put_other<'t, 'a, N: WholeType, R: NumberRules<N::Number>, H: I18n + FormI18n>(
    form: &Whole<N, R>,
    tree: &Tree<'t, 'a>,
    trail: &mut Trail<'a>,
    report: &mut Report,
    h: &H,
) -> Result<(), AllocError>
    ensures { Visited (other_visits (H.form_text h.now) (N.integer form.now.0)
        (R.bound form.now.1 (N.nearest form.now.0 (is_negative tree.now))) tree.now) (H.text h.now)
        trail.old trail.new report.old report.new result }
{
    let alloc = trail.alloc();
    if !tree.is_whole() {
        let fault = FormFault::Wrong(Wanted::Whole, tree.kind());
        return put(fault, trail, report, h);
    }
    let nearest = form.0.nearest(tree.is_negative());
    match form.1.find_bound(alloc, &nearest, h) {
        Ok(()) => {
            let fault = FormFault::OutOfRange(form.0.integer());
            put(fault, trail, report, h)
        }
        Err(bound) => trail.put(report, Err(bound)),
    }
}

/// A whole number of this type, under these rules, for instance
/// `Whole(U8, Is(range!(min = 18, max = 120)))`.
///
/// It is written by digits alone, perhaps behind a minus: `18.0`, `1e2` and `-0` are no whole numbers.
/// Of a number that the type does not hold, the first bound of the rules that it is beyond is
/// reported, as `lower than 18` of -1. Where it is beyond none, `out of range: 0 to 255` is.
#[derive(Clone, Copy, Debug)]
pub struct Whole<N, R>(pub N, pub R);

impl<'a, N: WholeType, R: NumberRules<N::Number>> Form<'a> for Whole<N, R> {
    type Out = N::Number;

    ghost visits = { λ form texts j. number_visits
        (other_visits texts (N.integer form.0) (R.bound form.1 (N.nearest form.0 (is_negative j))) j)
        (λ n. R.asks form.1 n) (N.spelled form.0 j) };

    ghost value = { λ form j. N.spelled form.0 j };

    ghost keeps = { λ form n. Known (R.asks form.1 n) };

    fn read<'t, H: I18n + FormI18n>(
        &self,
        tree: &Tree<'t, 'a>,
        trail: &mut Trail<'a>,
        report: &mut Report,
        h: &H,
    ) -> Result<Option<N::Number>, AllocError> {
        match self.0.spelled(tree) {
            Some(number) => {
                let told = self.1.ask(&number, trail, report, h);
                with(told, Some(number))
            }
            None => with(put_other(self, tree, trail, report, h), None),
        }
    }
}
