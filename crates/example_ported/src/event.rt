//! An enum, each variant with rules of its own.
ghost use Rattle.garde.specs.Fields.{◌and◌, ascii, at_least, at_most, between, bytes, field, is, item, minus, none, plus, range, signed_range, str, Visits};
ghost use Rattle.example_ported.specs.declared.event.Event.TheVariants.{Move, Say, Wait, Pair, Stop, Mark};

use garde::fields::{Ascii, Field, Fields, Is, Item};
use garde::{I18n, Report, Stated, Trail, Validate, length, range};
use std::alloc::AllocError;

/// What happens.
#[derive(Drop)]
pub enum Event {
    /// A number under its name.
    Move {
        steps: i32,
    },
    /// A text and its sender, of whom nothing is asked.
    Say {
        text: String,
        sender: u64,
        report: String,
    },
    /// A number under its index.
    Wait(u8),
    /// Two texts, each under its index.
    Pair(String, String),
    /// Nothing is asked.
    Stop,
    /// Nothing is asked of it either.
    Mark(u8),
}

impl Stated for Event {
    type Context = ();

    ghost visits = { λ v _. elim v as (λ _. Visits) [
      | Move steps ↦ field "steps" (is (signed_range (between (minus 10) (plus 10)) steps))
      | Say text _ the_report ↦ field "text" (is (ascii (str text)) and is (bytes (at_least 1) (str text))) and field "report" (is (bytes (at_most 3) (str the_report)))
      | Wait value ↦ item 0 (is (range (at_most 60) value))
      | Pair first second ↦ item 0 (is (ascii (str first))) and item 1 (is (bytes (at_least 2) (str second)))
      | Stop ↦ none
      | Mark _ ↦ none
    ] };
}

impl Validate for Event {
    fn validate_into<'a, H: I18n>(
        &'a self,
        _ctx: &(),
        trail: &mut Trail<'a>,
        report: &mut Report,
        h: &H,
    ) -> Result<(), AllocError> {
        match self {
            Event::Move { steps } => {
                Field("steps", steps, Is(range!(min = -10, max = 10))).visit(trail, report, h)
            }
            Event::Say {
                text,
                sender: _,
                report: the_report,
            } => {
                (
                    Field("text", text, (Is(Ascii), Is(length!(min = 1)))),
                    Field("report", the_report, Is(length!(max = 3))),
                )
                    .visit(trail, report, h)
            }
            Event::Wait(value) => Item(0, value, Is(range!(max = 60))).visit(trail, report, h),
            Event::Pair(first, second) => {
                (
                    Item(0, first, Is(Ascii)),
                    Item(1, second, Is(length!(min = 2))),
                )
                    .visit(trail, report, h)
            }
            Event::Stop => ().visit(trail, report, h),
            Event::Mark(_) => ().visit(trail, report, h),
        }
    }
}
