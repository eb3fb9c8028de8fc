//! Settings in TOML.

mod bare;
mod documents;
mod placed;
mod rejected;
