//! What is reported for values that hold other values.
use super::told::is_told_by_default;
use super::{text_of, user_of};
use crate::tests::OrEnd;
use crate::tests::item::Identifier;
use crate::tests::names::Names;
use crate::tests::user::User;
use garde::{Report, Validate, ValidateError};
use std::alloc::Global;
use std::borrow::Cow;
use std::collections::{BTreeMap, BTreeSet, BinaryHeap, HashMap, HashSet, LinkedList, VecDeque};
use std::fmt::Write;
use std::process::Abort;
use std::rc::Rc;

/// What is reported for one item of a container, which is too short a name, and the nodes of it.
const FIRST_TOO_SHORT: (&str, usize) = ("[0].username: length is lower than 3\n", 2);

/// What is reported for a value that is too short a name, and the nodes of it.
const TOO_SHORT: (&str, usize) = ("username: length is lower than 3\n", 1);

/// Whether the first item of a container is too short a name, and nothing else is reported.
fn is_first_short<V: Validate<Context = ()>>(alloc: Global, value: &V) -> bool {
    is_told_by_default(alloc, value, FIRST_TOO_SHORT)
}

/// Whether a value is too short a name, and nothing else is reported.
fn is_short<V: Validate<Context = ()>>(alloc: Global, value: &V) -> bool {
    is_told_by_default(alloc, value, TOO_SHORT)
}

/// Whether this user, whose name is too short, is reported in a linked list.
fn is_short_in_links(rt: &impl Abort, alloc: Global, named: &User) -> bool {
    let mut linked = LinkedList::new(alloc);
    linked.push_back(named).or_end(rt);
    is_first_short(alloc, &linked)
}

#[test]
fn sequences_under_indexes(rt: HostRuntime) {
    let alloc = rt.alloc();
    let named = user_of(&rt, alloc, "ab");
    let mut deque = VecDeque::new(alloc);
    deque.push_back(&named).or_end(&rt);
    assert!(rt;
        is_first_short(alloc, &[&named].as_slice())
            && is_first_short(alloc, &[&named])
            && is_first_short(alloc, &deque)
            && is_short_in_links(&rt, alloc, &named)
    );
}

#[test]
fn sets_and_heaps_under_indexes(rt: HostRuntime) {
    let alloc = rt.alloc();
    let mut set = BTreeSet::new(alloc);
    set.insert(user_of(&rt, alloc, "ab")).or_end(&rt);
    let mut heap = BinaryHeap::new(alloc);
    heap.push(user_of(&rt, alloc, "ab")).or_end(&rt);
    assert!(rt; is_first_short(alloc, &set) && is_first_short(alloc, &heap));
}

/// What the hash set reports, by the places at which `ab` and `é` stand in its order.
static ORDERS: [&str; 6] = [
    "[0].username: length is lower than 3\n[1].username: not ascii\n[1].username: length is lower than 3\n",
    "[0].username: length is lower than 3\n[2].username: not ascii\n[2].username: length is lower than 3\n",
    "[0].username: not ascii\n[0].username: length is lower than 3\n[1].username: length is lower than 3\n",
    "[1].username: length is lower than 3\n[2].username: not ascii\n[2].username: length is lower than 3\n",
    "[0].username: not ascii\n[0].username: length is lower than 3\n[2].username: length is lower than 3\n",
    "[1].username: not ascii\n[1].username: length is lower than 3\n[2].username: length is lower than 3\n",
];

/// Whether each fault of the hash set is reported at the place at which its item came.
fn is_told_in_some_order(alloc: Global, users: &HashSet<User>) -> bool {
    for text in &ORDERS {
        if is_told_by_default(alloc, users, (*text, 4)) {
            return true;
        }
    }
    false
}

#[test]
fn a_hash_set_numbers_its_items_as_they_come(rt: HostRuntime) {
    let mut users = HashSet::new(rt.alloc());
    for name in ["ab", "test", "é"] {
        users.insert(user_of(&rt, rt.alloc(), name)).or_end(&rt);
    }
    assert!(rt; is_told_in_some_order(rt.alloc(), &users));
}

/// Puts a user under a key of an ordered map.
pub fn put_ordered<K: Ord + Drop>(
    rt: &impl Abort,
    users: &mut BTreeMap<K, User>,
    key: K,
    user: User,
) {
    users.insert(key, user).or_end(rt);
}

/// Puts a user whose name is too short under a key of a map.
pub fn put_hashed(rt: &impl Abort, alloc: Global, users: &mut HashMap<String, User>, key: &str) {
    users
        .insert(text_of(rt, alloc, key), user_of(rt, alloc, "ab"))
        .or_end(rt);
}

/// Two keys that are not in order.
static KEYS: [&str; 2] = ["b", "a"];

/// Whether a user under each of these keys of an ordered map is reported, in the order of the keys.
fn are_told_in_order(rt: &impl Abort, alloc: Global) -> bool {
    let mut users = BTreeMap::new(alloc);
    for key in &KEYS {
        let user = user_of(rt, alloc, "ab");
        put_ordered(rt, &mut users, text_of(rt, alloc, key), user);
    }
    let text = "a.username: length is lower than 3\nb.username: length is lower than 3\n";
    is_told_by_default(alloc, &users, (text, 4))
}

#[test]
fn values_of_maps_under_their_keys(rt: HostRuntime) {
    let alloc = rt.alloc();
    let mut users = HashMap::new(alloc);
    put_hashed(&rt, alloc, &mut users, "x.y");
    let told = ("x.y.username: length is lower than 3\n", 2);
    assert!(rt; is_told_by_default(alloc, &users, told) && are_told_in_order(&rt, alloc));
}

#[test]
fn wrappers_add_nothing(rt: HostRuntime) {
    let alloc = rt.alloc();
    let mut named = user_of(&rt, alloc, "ab");
    let lent = is_short(alloc, &&mut named);
    let boxed = Box::new(alloc, &named).or_end(&rt);
    assert!(rt;
        lent && is_short(alloc, &&named)
            && is_short(alloc, &boxed)
            && is_told_by_default(alloc, &(), ("", 0))
    );
}

#[test]
fn shared_and_borrowed_values_add_nothing(rt: HostRuntime) {
    let alloc = rt.alloc();
    let numbered = Identifier { id: 10 };
    let shared = Rc::new(alloc, user_of(&rt, alloc, "ab")).or_end(&rt);
    let told = ("id: greater than 4\n", 1);
    assert!(rt;
        is_short(alloc, &shared)
            && is_told_by_default(alloc, &Cow::Borrowed(&numbered), told)
            && is_told_by_default(alloc, &Cow::<Identifier>::Owned(numbered), told)
    );
}

/// The paths of a report, a line each.
fn paths_of(rt: &impl Abort, alloc: Global, report: &Report) -> String {
    let mut paths = String::new(alloc);
    for (path, _) in report.iter() {
        write!(paths, "{path:?}\n").or_end(rt);
    }
    paths
}

// A name that is not set, one that is not ASCII, and an empty one.
#[test]
fn a_walk_of_an_option_adds_a_component_without_a_name(rt: HostRuntime) {
    let alloc = rt.alloc();
    let accented = text_of(&rt, alloc, "é");
    let items = vec![in alloc; None, Some(accented), Some(String::new(alloc))].or_end(&rt);
    let answer = Names { items }.validate(alloc);
    let paths =
        "Path { components: [(Key, \"items\"), (Index, \"0\")] }\nPath { components: [(Key, \"items\"), (Index, \"1\"), (None, \"\")] }\nPath { components: [(Key, \"items\"), (Index, \"2\"), (None, \"\")] }\n";
    assert!(rt;
        matches!(&answer, Err(ValidateError::Report(report))
            if paths_of(&rt, alloc, report).as_str() == paths)
    );
}
