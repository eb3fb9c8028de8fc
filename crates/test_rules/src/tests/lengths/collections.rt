//! Tests of the counts of items.
use crate::tests::{OrEnd, tells};
use garde_engines::length::{HasBytes, HasChars, HasSimpleLength, bytes, chars, simple};
use garde_i18n::DefaultI18n;
use std::alloc::AllocError;
use std::boxed::BoxedSlice;
use std::collections::{BTreeMap, BTreeSet, BinaryHeap, HashMap, HashSet, LinkedList, VecDeque};
use std::rc::RcSlice;

/// Whether a collection, or what a reference refers to, has three items.
fn has_three<T: HasSimpleLength + Drop>(collection: T) -> bool {
    collection.length() == 3
}

/// Whether a collection was made, and has three items.
fn is_made_with_three<T: HasSimpleLength + Drop>(made: Result<T, AllocError>) -> bool {
    match made {
        Ok(collection) => has_three(collection),
        Err(_) => false,
    }
}

#[test]
fn counts_the_items_of_lists_and_sets(rt: HostRuntime) {
    let alloc = rt.alloc();
    assert!(rt;
        is_made_with_three((0..3).collect::<Vec<u8>>(alloc))
            && has_three(b"789".as_slice())
            && is_made_with_three((0..3).collect::<BoxedSlice<u8>>(alloc))
            && is_made_with_three((0..3).collect::<VecDeque<u8>>(alloc))
            && is_made_with_three((0..3).collect::<LinkedList<u8>>(alloc))
            && is_made_with_three((0..3).collect::<HashSet<u8>>(alloc))
            && is_made_with_three((0..3).collect::<BTreeSet<u8>>(alloc))
            && is_made_with_three((0..3).collect::<BinaryHeap<u8>>(alloc))
    );
}

#[test]
fn counts_the_items_behind_references(rt: HostRuntime) {
    let alloc = rt.alloc();
    assert!(rt;
        has_three(&(0..3).collect::<Vec<u8>>(alloc).or_end(&rt))
            && has_three(&(0..3).collect::<VecDeque<u8>>(alloc).or_end(&rt))
            && has_three(&(0..3).collect::<LinkedList<u8>>(alloc).or_end(&rt))
            && has_three(&(0..3).collect::<HashSet<u8>>(alloc).or_end(&rt))
            && has_three(&(0..3).collect::<BTreeSet<u8>>(alloc).or_end(&rt))
            && has_three(&(0..3).collect::<BinaryHeap<u8>>(alloc).or_end(&rt))
    );
}

#[test]
fn counts_the_pairs_of_maps(rt: HostRuntime) {
    let pairs = [(0, true), (1, true), (2, true)];
    let hashed: HashMap<u8, bool> = pairs.into_iter().collect(rt.alloc()).or_end(&rt);
    let ordered: BTreeMap<u8, bool> = pairs.into_iter().collect(rt.alloc()).or_end(&rt);
    assert!(rt;
        has_three(&hashed) && has_three(&ordered) && has_three(hashed) && has_three(ordered)
    );
}

/// Whether a list of characters has two.
fn has_two_chars<T: HasChars + Drop>(letters: T) -> bool {
    letters.num_chars() == 2
}

/// Whether a list of bytes has two.
fn has_two_bytes<T: HasBytes + Drop>(octets: T) -> bool {
    octets.num_bytes() == 2
}

#[test]
fn counts_the_bytes_and_characters_of_lists(rt: HostRuntime) {
    let alloc = rt.alloc();
    let letters = vec![in alloc; 'a', 'b'].or_end(&rt);
    let low = chars::apply(alloc, &letters, (3, usize::MAX), &DefaultI18n);
    assert!(rt;
        tells(low, Some("length is lower than 3"))
            && has_two_chars(letters.into_boxed_slice())
            && has_two_chars(['a', 'b'].as_slice())
            && has_two_chars(RcSlice::from_slice(alloc, &['a', 'b']).or_end(&rt))
            && has_two_bytes(vec![in alloc; 0u8, 255].or_end(&rt))
            && has_two_bytes(vec![in alloc; 0u8, 255].or_end(&rt).into_boxed_slice())
            && has_two_bytes([0u8, 255].as_slice())
            && has_two_bytes(RcSlice::from_slice(alloc, &[0u8, 255]).or_end(&rt))
    );
}

#[test]
fn counts_the_items_of_arrays(rt: HostRuntime) {
    let alloc = rt.alloc();
    let zeros = [0u8; 4];
    let long = Some("length is greater than 3");
    assert!(rt;
        tells(simple::apply(alloc, &zeros, (0, 3), &DefaultI18n), long)
            && tells(simple::apply(alloc, &&zeros, (0, 3), &DefaultI18n), long)
            && tells(bytes::apply(alloc, &zeros, (0, 4), &DefaultI18n), None)
    );
}
