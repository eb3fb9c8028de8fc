//! Walks over the items of a field, whose rules are not those of a type of their own.
ghost use Rattle.std.specs.Prelude.{◌≡◌, ◌<◌, ℕ, List, refl, length, map, option_map, slice_get, IfSome};
ghost use Rattle.std.specs.Option.{option_to_list};
ghost use Rattle.std.specs.Box.{boxed_slice_items};
ghost use Rattle.garde_report.specs.Part.{Part, part_of, index_part, unnamed_part};
ghost use Rattle.garde_rules.specs.Inner.{component_items, keyed_items, key_place, Called, CalledOver, CallableAtEach};

use garde_report::{Component, NoKey, PathComponentKind, Report, Trail};
use std::alloc::AllocError;
use std::boxed::BoxedSlice;
use std::collections::BTreeMap;
use std::collections::btree_map::Iter;

/// A value whose items can be walked one after the other: a vector, an array, a slice, an option, a
/// map in the order of its keys, or a user-defined collection.
///
/// The values of a map come under their keys, the item of an option as unnamed, all others under
/// their index.
pub trait Inner<T> {
    /// What names the items.
    type Key: PathComponentKind;

    /// The items in order.
    ghost contents: { Self → List T };

    /// The component under which the item with this number comes.
    ghost place: { Self → ℕ → Part };

    /// The number of items.
    fn count(&self) -> usize
        ensures { result ≡ length (contents self.now) };

    /// The item with this number.
    fn item(&self, index: usize) -> Option<&T>
        ensures { option_map (λ item. item.now) result ≡ slice_get (contents self.now) index };

    /// The component under which the item with this number comes.
    fn component<'a>(&'a self, index: usize) -> Component<'a>
        requires { index < length (contents self.now) }
        ensures { part_of result ≡ place self.now index };

    /// All items with their keys in one pass, of a value whose items are dear to find by their number.
    fn in_order<'a>(&'a self) -> Option<Iter<'a, Self::Key, T>>
        ensures { IfSome result (λ entries. keyed_items Self.Key.kind Self.Key.text entries
            ≡ component_items (place self.now) (contents self.now)) }
    {
        None
    }

    /// The components have the kind of the key.
    ghost keyed: { (v : Self) (index : ℕ) → (place v index).kind ≡ Self.Key.kind };

    /// Calls `f` on each item once, in order, with its component, until it returns `Err`, and
    /// returns that error. Trail and report are handed on as the call before left them. To push the
    /// component, to visit and to pop is the work of `f`.
    ///
    /// `f` must be callable at each item under its component, whatever trail and report are.
    final fn validate_inner<'a, F>(
        &'a self,
        trail: &mut Trail<'a>,
        report: &mut Report,
        f: F,
    ) -> Result<(), AllocError>
    where
        T: 'a,
        F: Fn(&'a T, Component<'a>, &mut Trail<'a>, &mut Report) -> Result<(), AllocError> + Drop,
        requires { CallableAtEach (F.pre f) (component_items (place self.now) (contents self.now)) }
        ensures { CalledOver (F.post f) (component_items (place self.now) (contents self.now))
            trail.old report.old result trail.new report.new }
    {
        apply(self, trail, report, f)
    }
}

impl<T> Inner<T> for Vec<T> {
    type Key = usize;

    ghost contents = { λ vec. vec.items };

    ghost place = { λ _. index_part };

    ghost keyed = { λ _ index. refl };

    fn count(&self) -> usize {
        self.as_slice().len()
    }

    fn item(&self, index: usize) -> Option<&T> {
        self.as_slice().get(index)
    }

    fn component<'a>(&'a self, index: usize) -> Component<'a> {
        Component::index(index)
    }
}

impl<T, const N: usize> Inner<T> for [T; N] {
    type Key = usize;

    ghost contents = { λ array. array };

    ghost place = { λ _. index_part };

    ghost keyed = { λ _ index. refl };

    fn count(&self) -> usize {
        self.len()
    }

    fn item(&self, index: usize) -> Option<&T> {
        self.get(index)
    }

    fn component<'a>(&'a self, index: usize) -> Component<'a> {
        Component::index(index)
    }
}

impl<T> Inner<T> for &[T] {
    type Key = usize;

    ghost contents = { λ slice. slice.now };

    ghost place = { λ _. index_part };

    ghost keyed = { λ _ index. refl };

    fn count(&self) -> usize {
        self.len()
    }

    fn item(&self, index: usize) -> Option<&T> {
        self.get(index)
    }

    fn component<'a>(&'a self, index: usize) -> Component<'a> {
        Component::index(index)
    }
}

impl<T> Inner<T> for BoxedSlice<T> {
    type Key = usize;

    ghost contents = { boxed_slice_items };

    ghost place = { λ _. index_part };

    ghost keyed = { λ _ index. refl };

    fn count(&self) -> usize {
        self.as_slice().len()
    }

    fn item(&self, index: usize) -> Option<&T> {
        self.as_slice().get(index)
    }

    fn component<'a>(&'a self, index: usize) -> Component<'a> {
        Component::index(index)
    }
}

impl<T> Inner<T> for Option<T> {
    type Key = NoKey;

    ghost contents = { option_to_list };

    ghost place = { λ _ index. unnamed_part };

    ghost keyed = { λ _ index. refl };

    fn count(&self) -> usize {
        usize::from(self.is_some())
    }

    fn item(&self, index: usize) -> Option<&T> {
        match self {
            Some(item) if index == 0 => Some(item),
            _ => None,
        }
    }

    fn component<'a>(&'a self, _index: usize) -> Component<'a> {
        Component::unnamed()
    }
}

impl<K: Ord + PathComponentKind, T> Inner<T> for BTreeMap<K, T> {
    type Key = K;

    ghost contents = { λ v. map (λ entry. entry.1) v.entries };

    ghost place = { λ v. key_place K.kind K.text v.entries };

    ghost keyed = { λ _ index. refl };

    fn count(&self) -> usize {
        self.len()
    }

    fn item(&self, index: usize) -> Option<&T> {
        match entry_at(self, index) {
            Some(entry) => Some(entry.1),
            None => None,
        }
    }

    fn component<'a>(&'a self, index: usize) -> Component<'a> {
        match entry_at(self, index) {
            Some(entry) => entry.0.component(),
            None => Component::text(K::component_kind(), ""),
        }
    }

    fn in_order<'a>(&'a self) -> Option<Iter<'a, K, T>> {
        Some(self.iter())
    }
}

/// The entry of a map with this number, in the order of the keys.
fn entry_at<K: Ord, T>(entries: &BTreeMap<K, T>, index: usize) -> Option<(&K, &T)>
    ensures { option_map (λ entry. (entry.0.now, entry.1.now)) result
        ≡ slice_get entries.now.entries index }
{
    entries.iter().nth(index)
}

/// Calls `f` on each item of the field once, in order, with its component, until it returns `Err`,
/// and returns that error. Trail and report are handed on as the call before left them.
///
/// `f` must be callable at each item under its component, whatever trail and report are.
pub fn apply<'a, T, C, F>(
    field: &'a C,
    trail: &mut Trail<'a>,
    report: &mut Report,
    f: F,
) -> Result<(), AllocError>
where
    T: 'a,
    C: Inner<T>,
    F: Fn(&'a T, Component<'a>, &mut Trail<'a>, &mut Report) -> Result<(), AllocError> + Drop,
    requires { CallableAtEach (F.pre f) (component_items (C.place field.now) (C.contents field.now)) }
    ensures { CalledOver (F.post f) (component_items (C.place field.now) (C.contents field.now))
        trail.old report.old result trail.new report.new }
{
    match field.in_order() {
        Some(entries) => apply_in_order(entries, trail, report, &f),
        None => apply_by_index(field, trail, report, &f),
    }
}

/// The walk that finds each item by its number.
fn apply_by_index<'a, T, C, F>(
    field: &'a C,
    trail: &mut Trail<'a>,
    report: &mut Report,
    f: &F,
) -> Result<(), AllocError>
where
    T: 'a,
    C: Inner<T>,
    F: Fn(&'a T, Component<'a>, &mut Trail<'a>, &mut Report) -> Result<(), AllocError>,
    requires { CallableAtEach (F.pre f.now) (component_items (C.place field.now) (C.contents field.now)) }
    ensures { CalledOver (F.post f.now) (component_items (C.place field.now) (C.contents field.now))
        trail.old report.old result trail.new report.new }
{
    for index in 0..field.count() {
        if let Some(item) = field.item(index) {
            call(f, item, field.component(index), trail, report)?;
        }
    }
    Ok(())
}

/// The walk along the entries of a map.
fn apply_in_order<'a, K, T, F>(
    entries: Iter<'a, K, T>,
    trail: &mut Trail<'a>,
    report: &mut Report,
    f: &F,
) -> Result<(), AllocError>
where
    K: PathComponentKind + 'a,
    T: 'a,
    F: Fn(&'a T, Component<'a>, &mut Trail<'a>, &mut Report) -> Result<(), AllocError>,
    requires { CallableAtEach (F.pre f.now) (keyed_items K.kind K.text entries) }
    ensures { CalledOver (F.post f.now) (keyed_items K.kind K.text entries.entry)
        trail.old report.old result trail.new report.new }
{
    for (key, item) in entries {
        call(f, item, key.component(), trail, report)?;
    }
    Ok(())
}

/// One call of `f`.
fn call<'a, T, F>(
    f: &F,
    item: &'a T,
    component: Component<'a>,
    trail: &mut Trail<'a>,
    report: &mut Report,
) -> Result<(), AllocError>
where
    T: 'a,
    F: Fn(&'a T, Component<'a>, &mut Trail<'a>, &mut Report) -> Result<(), AllocError>,
    requires { (t : _) (r : _) → F.pre f.now item component t r }
    ensures { Called (F.post f.now) (part_of component.entry) item.now
        trail.old report.old result trail.new report.new }
{
    f(item, component, trail, report)
}
