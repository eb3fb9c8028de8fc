//! The rules of lengths and ranges, written as the attributes of the Rust crate's derive are.
//!
//! What a macro writes is the value itself and no call, so the prover sees its bounds wherever it
//! stands, also inside `Each`, `IfSome` and `WithMessage`.

/// The rule of a length as a value: `length!(min = 3)`, `length!(max = 25)`,
/// `length!(min = 3, max = 25)` or `length!(equal = 5)`.
///
/// A word before the bounds says what is counted: `bytes`, `chars`, `graphemes` or `utf16`, as in
/// `length!(chars, min = 3)`. Without one, or with `simple`, it is a `Length`.
#[macro_export]
macro_rules! length {
    (simple, $($bounds:tt)+) => {
        $crate::length_of!(Length, $($bounds)+)
    };
    (bytes, $($bounds:tt)+) => {
        $crate::length_of!(ByteLength, $($bounds)+)
    };
    (chars, $($bounds:tt)+) => {
        $crate::length_of!(CharLength, $($bounds)+)
    };
    (graphemes, $($bounds:tt)+) => {
        $crate::length_of!(GraphemeLength, $($bounds)+)
    };
    (utf16, $($bounds:tt)+) => {
        $crate::length_of!(Utf16Length, $($bounds)+)
    };
    ($($bounds:tt)+) => {
        $crate::length_of!(Length, $($bounds)+)
    };
}

/// The rule of the length of this name as a value, which `length!` writes.
#[macro_export]
macro_rules! length_of {
    ($rule:ident, min = $min:expr) => {
        $crate::fields::$rule {
            min: $min,
            max: usize::MAX,
        }
    };
    ($rule:ident, max = $max:expr) => {
        $crate::fields::$rule { min: 0, max: $max }
    };
    ($rule:ident, min = $min:expr, max = $max:expr) => {
        $crate::fields::$rule {
            min: $min,
            max: $max,
        }
    };
    ($rule:ident, equal = $count:expr) => {{
        let count = $count;
        $crate::fields::$rule {
            min: count,
            max: count,
        }
    }};
    ($rule:ident, $($bounds:tt)*) => {
        compile_error!("a length is written `min = 3`, `max = 25`, `min = 3, max = 25` or `equal = 5`")
    };
}

/// The rule of a range as a value: `range!(min = 18)`, `range!(max = 120)`,
/// `range!(min = 18, max = 120)` or `range!(equal = 5)`.
#[macro_export]
macro_rules! range {
    (min = $min:expr) => {
        $crate::fields::Range {
            min: Some($min),
            max: None,
        }
    };
    (max = $max:expr) => {
        $crate::fields::Range {
            min: None,
            max: Some($max),
        }
    };
    (min = $min:expr, max = $max:expr) => {
        $crate::fields::Range {
            min: Some($min),
            max: Some($max),
        }
    };
    (equal = $value:expr) => {{
        let value = $value;
        $crate::fields::Range {
            min: Some(value),
            max: Some(value),
        }
    }};
    ($($bounds:tt)*) => {
        compile_error!("a range is written `min = 18`, `max = 120`, `min = 18, max = 120` or `equal = 5`")
    };
}
