//! A node of a value, as C sees it.

/// `null`.
pub const NULL: u8 = 0;
/// `false`.
pub const FALSE: u8 = 1;
/// `true`.
pub const TRUE: u8 = 2;
/// A whole number of at most 64 bits and no sign: `value` is the number.
pub const WHOLE: u8 = 3;
/// A whole number below zero, of at most 64 bits with its sign: `value` is the number without it.
pub const NEGATIVE: u8 = 4;
/// Any other number, which has a text.
pub const NUMBER: u8 = 5;
/// A text, or the name of a member.
pub const TEXT: u8 = 6;
/// A list: `value` says how many items follow.
pub const LIST: u8 = 7;
/// An object: `value` says how many members follow, each a name and a value.
pub const OBJECT: u8 = 8;

/// A node of a JSON value. The nodes of a value are in the order of its text, so that what is in a list
/// or in an object comes right behind it.
#[repr(C)]
#[derive(Clone, Copy, Debug, Drop)]
pub struct Node {
    /// What begins here.
    pub kind: u8,
    /// Of a text: whether it lies in `texts`, and not in the body.
    pub in_texts: bool,
    /// Of a text: so many bytes.
    pub len: u32,
    /// Of a text: where it begins. Else see the kind.
    pub value: u64,
}
