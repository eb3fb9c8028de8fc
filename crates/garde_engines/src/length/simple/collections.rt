//! The lengths of collections: their items, and of a map its pairs.
ghost use Rattle.std.specs.Prelude.{length};
ghost use Rattle.std.specs.BTreeMap.{btree_map_len};
ghost use Rattle.std.specs.BTreeSet.{btree_set_len};
ghost use Rattle.std.specs.BinaryHeap.{heap_len};
ghost use Rattle.std.specs.Box.{boxed_slice_len};
ghost use Rattle.std.specs.HashMap.{hash_map_len};
ghost use Rattle.std.specs.HashSet.{hash_set_len};
ghost use Rattle.std.specs.LinkedList.{linked_list_len};

use super::HasSimpleLength;
use std::boxed::BoxedSlice;
use std::collections::{BTreeMap, BTreeSet, BinaryHeap, HashMap, HashSet, LinkedList, VecDeque};
use std::hash::{BuildHasher, Hash};

impl<T> HasSimpleLength for Vec<T> {
    ghost simple_len = { λ v. length v.items };

    fn length(&self) -> usize {
        self.len()
    }
}

impl<T> HasSimpleLength for &Vec<T> {
    ghost simple_len = { λ v. length v.now.items };

    fn length(&self) -> usize {
        self.len()
    }
}

impl<T> HasSimpleLength for BoxedSlice<T> {
    ghost simple_len = { λ v. boxed_slice_len v };

    fn length(&self) -> usize {
        self.len()
    }
}

impl<T> HasSimpleLength for &[T] {
    ghost simple_len = { λ v. length v.now };

    fn length(&self) -> usize {
        self.len()
    }
}

impl<K: Eq + Hash, V, S: BuildHasher> HasSimpleLength for HashMap<K, V, S> {
    ghost simple_len = { λ v. hash_map_len v };

    fn length(&self) -> usize {
        self.len()
    }
}

impl<K: Eq + Hash, V, S: BuildHasher> HasSimpleLength for &HashMap<K, V, S> {
    ghost simple_len = { λ v. hash_map_len v.now };

    fn length(&self) -> usize {
        self.len()
    }
}

impl<T: Eq + Hash, S: BuildHasher> HasSimpleLength for HashSet<T, S> {
    ghost simple_len = { λ v. hash_set_len v };

    fn length(&self) -> usize {
        self.len()
    }
}

impl<T: Eq + Hash, S: BuildHasher> HasSimpleLength for &HashSet<T, S> {
    ghost simple_len = { λ v. hash_set_len v.now };

    fn length(&self) -> usize {
        self.len()
    }
}

impl<K: Ord, V> HasSimpleLength for BTreeMap<K, V> {
    ghost simple_len = { λ v. btree_map_len v };

    fn length(&self) -> usize {
        self.len()
    }
}

impl<K: Ord, V> HasSimpleLength for &BTreeMap<K, V> {
    ghost simple_len = { λ v. btree_map_len v.now };

    fn length(&self) -> usize {
        self.len()
    }
}

impl<T: Ord> HasSimpleLength for BTreeSet<T> {
    ghost simple_len = { λ v. btree_set_len v };

    fn length(&self) -> usize {
        self.len()
    }
}

impl<T: Ord> HasSimpleLength for &BTreeSet<T> {
    ghost simple_len = { λ v. btree_set_len v.now };

    fn length(&self) -> usize {
        self.len()
    }
}

impl<T> HasSimpleLength for VecDeque<T> {
    ghost simple_len = { λ v. length v.items };

    fn length(&self) -> usize {
        self.len()
    }
}

impl<T> HasSimpleLength for &VecDeque<T> {
    ghost simple_len = { λ v. length v.now.items };

    fn length(&self) -> usize {
        self.len()
    }
}

impl<T: Ord> HasSimpleLength for BinaryHeap<T> {
    ghost simple_len = { λ v. heap_len v };

    fn length(&self) -> usize {
        self.len()
    }
}

impl<T: Ord> HasSimpleLength for &BinaryHeap<T> {
    ghost simple_len = { λ v. heap_len v.now };

    fn length(&self) -> usize {
        self.len()
    }
}

impl<T> HasSimpleLength for LinkedList<T> {
    ghost simple_len = { λ v. linked_list_len v };

    fn length(&self) -> usize {
        self.len()
    }
}

impl<T> HasSimpleLength for &LinkedList<T> {
    ghost simple_len = { λ v. linked_list_len v.now };

    fn length(&self) -> usize {
        self.len()
    }
}
