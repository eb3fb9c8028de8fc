//! The walk over objects that hold objects of the same form.
ghost use Rattle.std.specs.Prelude.{◌≡◌, ◌<◌, ◌^◌, length, option_map, IfOk, IfSome, OnOk};
ghost use Rattle.std.specs.List.{All};
ghost use Rattle.json.specs.Tree.{depth};
ghost use Rattle.garde_report.specs.Part.{index_part};
ghost use Rattle.garde.specs.Visits.{Visited, under, may_allocate};
ghost use Rattle.garde_schema.specs.Forms.{forget, Sound};
ghost use Rattle.garde_schema.specs.Lists.{all_values, each_item, with_last};
ghost use Rattle.garde_schema.specs.Nested.{below, below_visits, below_value, inner_value, inner_visits, made_of, Kept, object_value, object_visits};

use super::FromNested;
use super::level::Level;
use crate::items::{Items, add};
use crate::put::with;
use crate::tuples::pair;
use garde::Report;
use std::alloc::AllocError;

// The value that is made of both, where both are there.
fn made<T: FromNested>(own: Option<T::Own>, values: Option<Items<T>>) -> Option<T>
    ensures { result ≡ made_of T.builds own values }
{
    let (own, values) = pair(own, values)?;
    Some(T::from_nested(own, values))
}

// Reads an object of the form, and those in it.
#[cycle(nested)]
pub(super) fn read_level<T: FromNested, L: Level<Own = T::Own>>(
    level: &L,
    tree: &L::Tree,
    trail: &mut L::Trail,
    report: &mut Report,
) -> Result<Option<T>, AllocError>
    ensures answer { Visited (object_visits (L.parts level.now) (L.json tree.now))
        (L.text level.now) (L.trace trail.old) (L.trace trail.new) report.old report.new (forget result) }
    ensures value { IfOk result (λ out. out ≡ object_value T.builds (L.parts level.now) (L.json tree.now)) }
    ensures sound { OnOk result (Sound (object_visits (L.parts level.now) (L.json tree.now))
        (Kept (L.parts level.now).keeps T.parts_of)
        (object_value T.builds (L.parts level.now) (L.json tree.now))) }
{
    let begun = level.begin(tree, trail, report)?;
    let values = read_below(level, tree, begun.below, trail, report)?;
    let told = level.end(tree, trail, report);
    with(told, made(begun.own, values))
}

// Reads the objects in an object, where it has their list.
#[cycle(nested)]
fn read_below<T: FromNested, L: Level<Own = T::Own>>(
    level: &L,
    object: &L::Tree,
    items: Option<L::Trees>,
    trail: &mut L::Trail,
    report: &mut Report,
) -> Result<Option<Items<T>>, AllocError>
    requires found { option_map (λ items. L.jsons items) items ≡ below (L.parts level.now).name (L.json object.now) }
    requires bound { IfSome items (λ items. length (L.jsons items) < 2 ^ 64) }
    ensures answer { Visited (below_visits (L.parts level.now).name
        (inner_visits (L.parts level.now) (L.json object.now))
        (below (L.parts level.now).name (L.json object.now)))
        (L.text level.now) (L.trace trail.old) (L.trace trail.new) report.old report.new (forget result) }
    ensures value { IfOk result (λ out. out ≡ below_value
        (inner_value T.builds (L.parts level.now) (L.json object.now))
        (below (L.parts level.now).name (L.json object.now))) }
    ensures sound { OnOk result (IfSome (below (L.parts level.now).name (L.json object.now)) (λ js. Sound
        (each_item (inner_visits (L.parts level.now) (L.json object.now)) js)
        (All (Kept (L.parts level.now).keeps T.parts_of))
        (all_values (inner_value T.builds (L.parts level.now) (L.json object.now)) js))) }
{
    let Some(items) = items else {
        return Ok(None);
    };
    level.enter(trail)?;
    let values = read_items(level, object, items, trail, report);
    level.leave(trail);
    values
}

// Reads these objects in an object, each under its index. After one of another form the others are
// read for their faults.
#[cycle(nested)]
fn read_items<T: FromNested, L: Level<Own = T::Own>>(
    level: &L,
    object: &L::Tree,
    items: L::Trees,
    trail: &mut L::Trail,
    report: &mut Report,
) -> Result<Option<Items<T>>, AllocError>
    requires bound { length (L.jsons items) < 2 ^ 64 }
    requires smaller { All (λ x. depth x < depth (L.json object.now)) (L.jsons items) }
    ensures answer { Visited (each_item (inner_visits (L.parts level.now) (L.json object.now)) (L.jsons items))
        (L.text level.now) (L.trace trail.old) (L.trace trail.new) report.old report.new (forget result) }
    ensures value { IfOk result (λ out.
        out ≡ all_values (inner_value T.builds (L.parts level.now) (L.json object.now)) (L.jsons items)) }
    ensures sound { OnOk result (Sound
        (each_item (inner_visits (L.parts level.now) (L.json object.now)) (L.jsons items))
        (All (Kept (L.parts level.now).keeps T.parts_of))
        (all_values (inner_value T.builds (L.parts level.now) (L.json object.now)) (L.jsons items))) }
{
    let mut left = items;
    let mut values = Some(Items::new(level.alloc(trail)));
    let mut index = 0;
    while let Some(item) = level.next(&mut left) {
        values = read_item(level, object, index, &item, values, trail, report)?;
        index += 1;
    }
    Ok(values)
}

// Reads one of these objects, and adds its value to those before it.
#[cycle(nested)]
fn read_item<T: FromNested, L: Level<Own = T::Own>>(
    level: &L,
    object: &L::Tree,
    index: usize,
    item: &L::Tree,
    values: Option<Items<T>>,
    trail: &mut L::Trail,
    report: &mut Report,
) -> Result<Option<Items<T>>, AllocError>
    requires { depth (L.json item.now) < depth (L.json object.now) }
    ensures answer { Visited (under (index_part index)
        (may_allocate (inner_visits (L.parts level.now) (L.json object.now) (L.json item.now))))
        (L.text level.now) (L.trace trail.old) (L.trace trail.new) report.old report.new (forget result) }
    ensures value { IfOk result (λ out. out ≡ with_last values
        (inner_value T.builds (L.parts level.now) (L.json object.now) (L.json item.now))) }
    ensures sound { OnOk result (Sound (inner_visits (L.parts level.now) (L.json object.now) (L.json item.now))
        (Kept (L.parts level.now).keeps T.parts_of)
        (inner_value T.builds (L.parts level.now) (L.json object.now) (L.json item.now))) }
{
    let _object = object;
    level.enter_item(index, trail)?;
    let value = read_level(level, item, trail, report);
    level.leave(trail);
    add(values, value?)
}
