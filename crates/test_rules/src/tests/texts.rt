//! Tests of the types of texts.
use crate::tests::OrEnd;
use garde_rules::AsStr;
use garde_rules::ascii::Ascii;
use std::borrow::CowStr;

/// Whether a value lends this text, and its rule of ASCII reads it.
fn lends<T: AsStr>(value: &T, text: &str) -> bool {
    value.as_str() == text && value.validate_ascii() == text.is_ascii()
}

#[test]
fn reads_every_type_of_text(rt: HostRuntime) {
    let owned = String::from_str(rt.alloc(), "é").or_end(&rt);
    let view = CowStr::Owned(String::from_str(rt.alloc(), "é").or_end(&rt));
    assert!(rt;
        lends(&"é", "é")
            && lends(&owned, "é")
            && lends(&view, "é")
            && lends(&CowStr::Borrowed("test"), "test")
    );
}
