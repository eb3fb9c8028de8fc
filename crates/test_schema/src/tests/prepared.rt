//! Bodies that are read in room that was made before, while each request for memory fails.

use garde::DefaultI18n;
use garde_schema::{Member, Object, Text, U8, Whole, read_json};
use garde_tape::{Scratch, parse};
use std::alloc::{AllocError, Global};
use test_memory::Scarce;

/// Valid bodies: with escapes, with spaces, and behind a byte order mark.
static BODIES: [&[u8]; 4] = [
    b"{\"name\":\"Ann\",\"age\":18}",
    b"{\"age\":120,\"name\":\"\\u0041\\ud83d\\ude00\"}",
    b" { \"name\" : \"\" , \"age\" : 99 } ",
    b"\xef\xbb\xbf{\"name\":\"Eve\",\"age\":0}",
];

/// At least the length of each.
const ROOM: u32 = 64;

/// A text of as many tokens as bytes, and there are as many as the room is for.
static DENSE: &str = "[[[[[[[[[[[[[[[[[[[[[[[[[[[[[[[[]]]]]]]]]]]]]]]]]]]]]]]]]]]]]]]]";

// Whether a body is read as a value.
fn is_read(alloc: Global, body: &[u8], scratch: &mut Scratch) -> bool {
    let form = Object((Member("name", Text(())), Member("age", Whole(U8, ()))));
    read_json(alloc, body, scratch, &form, &DefaultI18n).is_ok()
}

// Whether ten thousand bodies and a dense text between them are read.
fn are_read(alloc: Global, scratch: &mut Scratch) -> bool {
    let mut all = true;
    for turn in 0..10_000usize {
        all = all && is_read(alloc, BODIES[turn % 4], scratch);
        all = all && parse(alloc, DENSE, scratch).is_ok();
    }
    all
}

// Whether they are read without memory in room that was made, and none is where no room was.
fn reads_in_room_alone(alloc: Global) -> Result<bool, AllocError> {
    let mut scratch = Scratch::with_room(alloc, ROOM)?;
    let mut memory = Scarce::taken(alloc)?;
    memory.begin();
    let all = are_read(alloc, &mut scratch);
    let again = scratch.reserve_tape(ROOM).is_ok();
    let without = is_read(alloc, BODIES[0], &mut Scratch::new(alloc));
    memory.end();
    Ok(all && again && !without)
}

#[test]
fn reads_without_memory_where_room_was_made(rt: HostRuntime) {
    assert!(rt; reads_in_room_alone(rt.alloc()) == Ok(true));
}
