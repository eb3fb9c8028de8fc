//! Values that hold other values.

mod maps;
mod sequences;
mod sets;
mod tuples;
mod wrappers;
