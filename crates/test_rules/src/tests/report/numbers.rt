//! Whole numbers as components: the largest or the least of each size.

use crate::tests::report::errors::is_path_of;

const LARGEST: &str = "#340282366920938463463374607431768211455>";

const LEAST: &str = "#-170141183460469231731687303715884105728>";

#[test]
fn each_number_is_an_index(rt: HostRuntime) {
    let alloc = rt.alloc();
    assert!(rt;
        is_path_of(&rt, alloc, u8::MAX, "#255>")
            && is_path_of(&rt, alloc, u16::MAX, "#65535>")
            && is_path_of(&rt, alloc, u32::MAX, "#4294967295>")
            && is_path_of(&rt, alloc, u64::MAX, "#18446744073709551615>")
            && is_path_of(&rt, alloc, u128::MAX, LARGEST)
            && is_path_of(&rt, alloc, 7u128, "#7>")
            && is_path_of(&rt, alloc, i8::MIN, "#-128>")
            && is_path_of(&rt, alloc, i16::MIN, "#-32768>")
            && is_path_of(&rt, alloc, i32::MIN, "#-2147483648>")
            && is_path_of(&rt, alloc, i64::MIN, "#-9223372036854775808>")
            && is_path_of(&rt, alloc, isize::MAX, "#9223372036854775807>")
            && is_path_of(&rt, alloc, i128::MIN, LEAST)
            && is_path_of(&rt, alloc, 7i128, "#7>")
    );
}
