//! An enum, each variant with its own visit.
ghost use Rattle.garde.specs.Fields.{between, field, is, item, minus, plus, signed_range, Visits};
ghost use Rattle.example_types.specs.declared.data.Data.TheVariants.{Struct, Tuple};

use garde::fields::{Field, Fields, Is, check_under};
use garde::{Component, I18n, Report, Stated, Trail, Validate, range};
use std::alloc::AllocError;

/// A number from -10 to 10, with a name or with a place.
#[derive(Clone, Copy)]
pub enum Data {
    /// The number is reported under `field`.
    Struct { field: i32 },
    /// The number is reported under its place.
    Tuple(i32),
}

impl Stated for Data {
    type Context = ();

    ghost visits = { λ v _. elim v as (λ _. Visits) [
      | Struct number ↦ field "field" (is (signed_range (between (minus 10) (plus 10)) number))
      | Tuple number ↦ item 0 (is (signed_range (between (minus 10) (plus 10)) number))
    ] };
}

impl Validate for Data {
    fn validate_into<'a, H: I18n>(
        &'a self,
        _ctx: &(),
        trail: &mut Trail<'a>,
        report: &mut Report,
        h: &H,
    ) -> Result<(), AllocError> {
        let within = Is(range!(min = -10, max = 10));
        match self {
            Data::Struct { field } => Field("field", field, within).visit(trail, report, h),
            Data::Tuple(number) => {
                let first = Component::index(0);
                check_under(first, &within, number, trail, report, h)
            }
        }
    }
}
