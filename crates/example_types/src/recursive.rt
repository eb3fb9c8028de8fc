//! Values that hold values of their own type.
pub mod comment;
pub mod expr;
pub mod folder;
pub mod menu;
pub mod question;
pub mod tree;
