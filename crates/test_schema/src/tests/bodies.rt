//! Bodies as they come: what each one is, or why it is none.

use super::is_text;
use garde_tape::{Kind, Scratch, Tree, parse_bytes};
use std::alloc::{AllocError, Global};
use std::fmt::{Debug, Write};

// Writes a text, and a value as it prints for debugging.
fn push<T: Debug>(out: &mut String, before: &str, value: &T) -> Result<(), AllocError> {
    write!(out, "{before}{value:?}")
}

// Writes the kinds of the first four items of a list.
fn draw_items(out: &mut String, tree: &Tree<'_, '_>) -> Result<(), AllocError> {
    if let Some(mut items) = tree.items() {
        for _ in 0..4 {
            if let Some(item) = items.next() {
                push(out, " ", &item.kind())?;
            }
        }
    }
    Ok(())
}

// Writes the names and the kinds of the first eight members of an object.
fn draw_members(out: &mut String, tree: &Tree<'_, '_>) -> Result<(), AllocError> {
    if let Some(mut members) = tree.members() {
        for _ in 0..8 {
            if let Some((name, value)) = members.next() {
                push(out, " ", &name)?;
                push(out, "=", &value.kind())?;
            }
        }
    }
    Ok(())
}

// Writes a text, a number or a flag, where the value is one.
fn draw_leaf(out: &mut String, tree: &Tree<'_, '_>) -> Result<(), AllocError> {
    if let Some(text) = tree.as_str() {
        push(out, " ", &text)
    } else if let Some(number) = tree.as_number() {
        out.push_str(" ")?;
        out.push_str(number)
    } else if let Some(flag) = tree.as_bool() {
        push(out, " ", &flag)
    } else {
        Ok(())
    }
}

// A value: its kind, and what stands in it, of an object and of a list one level deep.
pub(super) fn drawn(alloc: Global, tree: &Tree<'_, '_>) -> Result<String, AllocError> {
    let mut out = String::new(alloc);
    push(&mut out, "", &tree.kind())?;
    draw_leaf(&mut out, tree)?;
    draw_items(&mut out, tree)?;
    draw_members(&mut out, tree)?;
    Ok(out)
}

fn read(alloc: Global, bytes: &[u8]) -> Result<String, AllocError> {
    let mut scratch = Scratch::new(alloc);
    match parse_bytes(alloc, bytes, &mut scratch) {
        Ok(tape) => drawn(alloc, &Tree::root(&tape)),
        Err(error) => error.to_string(alloc),
    }
}

const BODIES: &[(&[u8], &str)] = &[
    (b"null", "Null"),
    (b" true\n", "Boolean true"),
    (b"false", "Boolean false"),
    (b"-0.50e+1", "Number -0.50e+1"),
    (b"\"a\\u0041\\n\\ud83d\\ude00\"", "Text \"aA\\n\u{1f600}\""),
    (b"\"\"", "Text \"\""),
    (b"[]", "List"),
    (b"[1,\"a\",null,[]]", "List Number Text Null List"),
    (b"{}", "Object"),
    (
        b"{\"b\":{},\"a\":[],\"b\":true}",
        "Object \"b\"=Object \"a\"=List \"b\"=Boolean",
    ),
    (
        b"{\"a.b\":1,\"[0]\":2,\"\":3,\"\\u0000\":4}",
        "Object \"a.b\"=Number \"[0]\"=Number \"\"=Number \"\\0\"=Number",
    ),
    (
        b"{\"a\\nb\":1,\"__proto__\":{},\"\\u0061\":2}",
        "Object \"a\\nb\"=Number \"__proto__\"=Object \"a\"=Number",
    ),
    (b"", "not JSON at line 1 column 1"),
    (b"\xef\xbb\xbf{}", "Object"),
    (b"{\"a\":1,}", "not JSON at line 1 column 8"),
    (b"[1,]", "not JSON at line 1 column 4"),
    (b"1 2", "not JSON at line 1 column 3"),
    (b"{\"a\":\n 012}", "not JSON at line 2 column 3"),
    (b"\"\\ud800\"", "a lone surrogate at line 1 column 8"),
    (b"\"a\nb\"", "not JSON at line 1 column 3"),
    (b"{\"a\":{\"b\":[1", "not JSON at line 1 column 13"),
    (b"{1:2}", "not JSON at line 1 column 2"),
    (b"\"\xff\"", "not UTF-8 at line 1 column 2"),
    (b"[1,\n\"\xc3", "not UTF-8 at line 2 column 2"),
];

#[test]
fn tells_what_a_body_is(rt: HostRuntime) {
    for (body, expected) in BODIES {
        assert!(rt; is_text(read(rt.alloc(), body), expected), "{expected}");
    }
}
