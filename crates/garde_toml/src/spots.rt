//! Where the keys and the values of a TOML text stand, as a tree.

use garde_tape::Place;
use std::alloc::{AllocError, Global};
use std::collections::BTreeMap;
use toml_parser::ParseError;

/// What a value is written as in JSON.
#[derive(Clone, Copy, Drop, PartialEq, Eq)]
pub(crate) enum Shape {
    /// One token.
    Plain,
    /// A bare value: a list of a number and a text.
    Bare,
    Array,
    Table,
}

/// A key and its value. An item of an array has no key.
#[derive(Drop)]
struct Spot {
    name: Place,
    value: Place,
    shape: Shape,
    items: Vec<usize>,
    members: BTreeMap<String, usize>,
}

/// The keys and values of a text, each by its number. The first is the text as a table.
#[derive(Drop)]
pub(crate) struct Spots {
    alloc: Global,
    all: Vec<Spot>,
}

/// The number of the whole text.
pub(crate) const ROOT: usize = 0;

/// How many tokens a bare value has.
const BARE: usize = 4;

impl Spots {
    pub(crate) fn new(alloc: Global) -> Spots {
        Spots {
            alloc,
            all: Vec::new(alloc),
        }
    }

    /// A key and its value at these places, below none.
    pub(crate) fn add(
        &mut self,
        name: Place,
        value: Place,
        shape: Shape,
    ) -> Result<usize, AllocError> {
        let number = self.all.len();
        self.all.push(Spot {
            name,
            value,
            shape,
            items: Vec::new(self.alloc),
            members: BTreeMap::new(self.alloc),
        })?;
        Ok(number)
    }

    /// An item behind those of an array.
    pub(crate) fn add_item(&mut self, array: usize, place: Place) -> Result<usize, AllocError> {
        let item = self.add(place, place, Shape::Plain)?;
        if let Some(spot) = self.all.get_mut(array) {
            spot.items.push(item)?;
        }
        Ok(item)
    }

    /// The member of that key, which is made as a table where there is none.
    pub(crate) fn member(
        &mut self,
        table: usize,
        key: String,
        place: Place,
    ) -> Result<usize, ParseError> {
        if let Some(spot) = self.all.get(table) {
            if let Some(member) = spot.members.get(key.as_str()) {
                return Ok(*member);
            }
        }
        let member = self.add(place, place, Shape::Table)?;
        if let Some(spot) = self.all.get_mut(table) {
            spot.members.insert(key, member)?;
        }
        Ok(member)
    }

    /// The last item of an array, and else the value itself.
    pub(crate) fn last_item(&self, number: usize) -> usize {
        match self.all.get(number) {
            Some(spot) => match spot.items.last() {
                Some(item) => *item,
                None => number,
            },
            None => number,
        }
    }

    /// Says where a value stands, and what it is.
    pub(crate) fn put(&mut self, number: usize, value: Place, shape: Shape) {
        if let Some(spot) = self.all.get_mut(number) {
            spot.value = value;
            spot.shape = shape;
        }
    }

    /// Says where an array of tables stands, whose first item is to come.
    pub(crate) fn put_array(&mut self, number: usize, value: Place) {
        if let Some(spot) = self.all.get_mut(number) {
            if spot.items.is_empty() {
                spot.value = value;
                spot.shape = Shape::Array;
            }
        }
    }

    /// Lists the place of each token of a value in JSON, where it nests no deeper than that.
    pub(crate) fn list(
        &self,
        number: usize,
        depth: usize,
        places: &mut Vec<Place>,
    ) -> Result<(), AllocError> {
        let Some(spot) = self.all.get(number) else {
            return Ok(());
        };
        if depth == 0 {
            return Ok(());
        }
        let tokens = if spot.shape == Shape::Bare { BARE } else { 1 };
        for _ in 0..tokens {
            places.push(spot.value)?;
        }
        for item in &spot.items {
            self.list(*item, depth - 1, places)?;
        }
        for (_, member) in spot.members.iter() {
            self.list_name(*member, places)?;
            self.list(*member, depth - 1, places)?;
        }
        if spot.shape == Shape::Array || spot.shape == Shape::Table {
            places.push(spot.value)?;
        }
        Ok(())
    }

    fn list_name(&self, number: usize, places: &mut Vec<Place>) -> Result<(), AllocError> {
        match self.all.get(number) {
            Some(spot) => Ok(places.push(spot.name)?),
            None => Ok(()),
        }
    }
}
