//! Texts that write `true` or `false`, or one character: what each parser makes of each.

use super::numbers::reads;
use garde_form::Character;
use garde_schema::Flag;

static FLAGS: [(&str, Option<bool>); 11] = [
    ("true", Some(true)),
    ("false", Some(false)),
    ("", None),
    ("True", None),
    ("TRUE", None),
    (" true", None),
    ("false ", None),
    ("truefalse", None),
    ("1", None),
    ("on", None),
    ("tru\u{435}", None),
];

static CHARACTERS: [(&str, Option<char>); 12] = [
    ("a", Some('a')),
    (" ", Some(' ')),
    ("\0", Some('\0')),
    ("\u{7f}", Some('\u{7f}')),
    ("\u{e9}", Some('\u{e9}')),
    ("\u{20ac}", Some('\u{20ac}')),
    ("\u{1d11e}", Some('\u{1d11e}')),
    ("\u{10ffff}", Some('\u{10ffff}')),
    ("", None),
    ("ab", None),
    ("e\u{301}", None),
    ("\u{1d11e}\0", None),
];

#[test]
fn reads_flags_and_characters(rt: HostRuntime) {
    reads(&rt, &Flag, &FLAGS);
    reads(&rt, &Character, &CHARACTERS);
}
