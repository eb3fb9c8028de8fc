//! Tests of the lengths of options.
use crate::tests::tells;
use garde_engines::length::{bytes, chars, graphemes, simple, utf16};
use garde_i18n::DefaultI18n;

#[test]
fn asks_the_value_of_an_option(rt: HostRuntime) {
    let alloc = rt.alloc();
    let h = DefaultI18n;
    let none: Option<&str> = None;
    let long = Some("length is greater than 2");
    let some = Some("abc");
    assert!(rt;
        tells(simple::apply(alloc, &none, (1, 2), &h), None)
            && tells(bytes::apply(alloc, &none, (1, 2), &h), None)
            && tells(chars::apply(alloc, &none, (1, 2), &h), None)
            && tells(graphemes::apply(alloc, &none, (1, 2), &h), None)
            && tells(utf16::apply(alloc, &none, (1, 2), &h), None)
            && tells(simple::apply(alloc, &some, (1, 2), &h), long)
            && tells(bytes::apply(alloc, &some, (1, 2), &h), long)
            && tells(chars::apply(alloc, &some, (1, 2), &h), long)
            && tells(graphemes::apply(alloc, &some, (1, 2), &h), long)
            && tells(utf16::apply(alloc, &some, (1, 2), &h), long)
    );
}
