//! Types of Rust sources with `#[derive(Validate)]`, as `tools/port-garde` writes them. `own` is written by hand.
#![tactic(auto)]

pub mod account;
pub mod basket;
pub mod bill;
pub mod coupon;
pub mod delivery;
pub mod depot;
pub mod draft;
pub mod event;
pub mod folder;
pub mod generic;
pub mod guest;
pub mod hook;
pub mod label;
pub mod openapi;
pub mod own;
pub mod page;
pub mod pair;
pub mod parcel;
pub mod place;
pub mod reading;
pub mod shelf;
pub mod shop;
pub mod stay;
pub mod team;
pub mod visitor;
pub mod wrapped;
