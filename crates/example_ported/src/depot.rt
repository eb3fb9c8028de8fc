//! The other collections, and parts that are shared or stand under keys.
ghost use Rattle.garde.specs.Fields.{◌and◌, ascii, at_least, at_most, bytes, each, each_in_any_order, each_value, each_value_in_any_order, field, index_part, is, items, range, str, text_key};

use garde::fields::{Ascii, Dive, Each, Field, Fields, Is};
use garde::{I18n, Report, Stated, Trail, Validate, length, range};
use std::alloc::AllocError;
use std::collections::{BTreeMap, HashMap, HashSet, LinkedList, VecDeque};
use std::rc::Rc;

/// A door.
#[derive(Drop)]
pub struct Door {
    pub width: u8,
}

impl Stated for Door {
    type Context = ();

    ghost visits = { λ v _. field "width" (is (range (at_most 15) v.width)) };
}

impl Validate for Door {
    fn validate_into<'a, H: I18n>(
        &'a self,
        _ctx: &(),
        trail: &mut Trail<'a>,
        report: &mut Report,
        h: &H,
    ) -> Result<(), AllocError> {
        let Self { width } = self;
        Field("width", width, Is(range!(max = 15))).visit(trail, report, h)
    }
}

/// What a depot has.
#[derive(Drop)]
pub struct Depot {
    pub counts: HashMap<String, u32>,
    pub names: HashMap<usize, String>,
    pub keys: HashSet<String>,
    pub queue: VecDeque<u8>,
    pub chain: LinkedList<u8>,
    pub digits: [u8; 3],
    pub gate: Rc<Door>,
    pub doors: BTreeMap<String, Door>,
}

impl Stated for Depot {
    type Context = ();

    ghost visits = { λ v ctx.
        field "counts" (is (items (at_most 1) v.counts.entries) and each_value_in_any_order text_key (λ x. is (range (at_most 9) x)) v.counts.entries)
        and field "names" (each_value_in_any_order index_part (λ x. is (ascii (str x))) v.names.entries)
        and field "keys" (is (items (at_least 1) v.keys.keys) and each_in_any_order (λ x. is (bytes (at_most 4) (str x))) v.keys.keys)
        and field "queue" (is (items (at_most 1) v.queue.items) and each (λ x. is (range (at_most 9) x)) v.queue.items)
        and field "chain" (is (items (at_most 1) v.chain) and each (λ x. is (range (at_most 9) x)) v.chain)
        and field "digits" (each (λ x. is (range (at_most 9) x)) v.digits)
        and field "gate" (⟦<Door as Stated>⟧.visits v.gate.value ctx)
        and field "doors" (each_value text_key (λ x. ⟦<Door as Stated>⟧.visits x ctx) v.doors.entries) };
}

impl Validate for Depot {
    fn validate_into<'a, H: I18n>(
        &'a self,
        ctx: &(),
        trail: &mut Trail<'a>,
        report: &mut Report,
        h: &H,
    ) -> Result<(), AllocError> {
        let Self {
            counts,
            names,
            keys,
            queue,
            chain,
            digits,
            gate,
            doors,
        } = self;
        (
            Field(
                "counts",
                counts,
                (Is(length!(max = 1)), Each(Is(range!(max = 9)))),
            ),
            Field("names", names, Each(Is(Ascii))),
            Field(
                "keys",
                keys,
                (Is(length!(min = 1)), Each(Is(length!(max = 4)))),
            ),
            Field(
                "queue",
                queue,
                (Is(length!(max = 1)), Each(Is(range!(max = 9)))),
            ),
            Field(
                "chain",
                chain,
                (Is(length!(max = 1)), Each(Is(range!(max = 9)))),
            ),
            (
                Field("digits", digits, Each(Is(range!(max = 9)))),
                Field("gate", gate, Dive(ctx)),
                Field("doors", doors, Each(Dive(ctx))),
            ),
        )
            .visit(trail, report, h)
    }
}
