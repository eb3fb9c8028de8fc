//! Types as a user of `garde` writes them, who lists that crate and no other.
#![tactic(auto)]

pub mod contact;
pub mod data;
pub mod document;
pub mod german;
pub mod ledger;
pub mod login;
pub mod names;
pub mod order;
pub mod payment;
pub mod profile;
pub mod recursive;
pub mod signup;
pub mod stay;
pub mod stock;
pub mod table;
pub mod tag;
pub mod team;
pub mod username;
pub mod valid;
