//! Bodies by schemas, each with the faults that are reported of it.

use crate::Schema;
use garde::DefaultI18n;
use garde_schema::{ReadError, Scratch, Tree, parse, read_json};
use std::alloc::{AllocError, Global};

// The faults of a body by a schema, as the report shows them.
fn told_of(alloc: Global, schema: &str, body: &str) -> Result<String, AllocError> {
    let (mut of_schema, mut of_body) = (Scratch::new(alloc), Scratch::new(alloc));
    let Ok(tape) = parse(alloc, schema, &mut of_schema) else {
        return String::from_str(alloc, "no schema");
    };
    let form = Schema::new(Tree::root(&tape));
    match read_json(alloc, body.as_bytes(), &mut of_body, &form, &DefaultI18n) {
        Ok(()) => Ok(String::new(alloc)),
        Err(ReadError::Report(report)) => format!(in alloc; "{report}"),
        Err(ReadError::Parse(_)) => String::from_str(alloc, "no JSON"),
        Err(ReadError::Memory) => Err(AllocError),
    }
}

// A schema, a body, and what is told.
const CASES: [(&str, &str, &str); 11] = [
    ("{\"minLength\":2.0}", "\"a\"", "length is lower than 2\n"),
    ("{\"type\":\"integer\"}", "1.5", "not a whole number\n"),
    ("{\"type\":\"integer\",\"maximum\":9}", "90e-1", ""),
    (
        "{\"prefixItems\":[{\"type\":[\"string\",\"null\"]},{\"type\":[\"string\",\"array\"]}]}",
        "[1,2]",
        "[0]: not a text\n[1]: not of a type that is allowed here\n",
    ),
    ("{\"exclusiveMinimum\":0}", "0.0", "not greater than 0\n"),
    ("{\"enum\":[1,\"a\",null,true]}", "1.0", ""),
    ("{\"const\":{\"a\":1,\"b\":2}}", "{\"b\":2.0,\"a\":1}", ""),
    (
        "{\"const\":{\"a\":[1,{}],\"b\":2}}",
        "{\"b\":2,\"a\":[1,{\"c\":0}]}",
        "not one of the known values\n",
    ),
    ("{\"required\":[\"a\"]}", "[\"a\"]", ""),
    (
        "{\"properties\":{\"a\":{\"type\":\"string\"}},\"required\":[\"a\",\"b\"],\"additionalProperties\":false}",
        "{\"a\":1,\"c\":2}",
        "a: not a text\nb: missing\nc: not known here\n",
    ),
    (
        "{\"$ref\":\"#/$defs/node\",\"$defs\":{\"node\":{\"$anchor\":\"n\",\"prefixItems\":[{\"type\":\"string\"}],\"items\":{\"$ref\":\"#n\"}}}}",
        "[1,[\"a\"],[\"b\",[2]]]",
        "[0]: not a text\n[2][1][0]: not a text\n",
    ),
];

#[test]
fn bodies_are_told(rt: HostRuntime) {
    for (schema, body, wanted) in CASES {
        let is_told = match told_of(rt.alloc(), schema, body) {
            Ok(told) => told.as_str() == wanted,
            Err(_) => false,
        };
        assert!(rt; is_told);
    }
}
