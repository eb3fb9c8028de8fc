//! The lengths of texts: their bytes.
ghost use Rattle.std.specs.Prelude.{string_bytes};
ghost use Rattle.std.specs.Box.{boxed_str_bytes};
ghost use Rattle.std.specs.Cow.{cow_str_bytes};
ghost use Rattle.std.specs.Rc.{rc_str_bytes};
ghost use Rattle.garde_engines.specs.Counts.{byte_count};

use super::HasSimpleLength;
use std::borrow::CowStr;
use std::boxed::BoxedStr;
use std::rc::RcStr;

impl HasSimpleLength for String {
    ghost simple_len = { λ v. byte_count (string_bytes v) };

    fn length(&self) -> usize {
        self.len()
    }
}

impl HasSimpleLength for &String {
    ghost simple_len = { λ v. byte_count (string_bytes v.now) };

    fn length(&self) -> usize {
        self.len()
    }
}

impl HasSimpleLength for &str {
    ghost simple_len = { λ v. byte_count v.now };

    fn length(&self) -> usize {
        self.len()
    }
}

impl HasSimpleLength for CowStr<'_> {
    ghost simple_len = { λ v. byte_count (cow_str_bytes v) };

    fn length(&self) -> usize {
        self.len()
    }
}

impl HasSimpleLength for RcStr {
    ghost simple_len = { λ v. byte_count (rc_str_bytes v) };

    fn length(&self) -> usize {
        self.len()
    }
}

impl HasSimpleLength for BoxedStr {
    ghost simple_len = { λ v. byte_count (boxed_str_bytes v) };

    fn length(&self) -> usize {
        self.len()
    }
}
