//! What is known by each word of a visit: the fact that it asks, and nothing else. Each function does
//! nothing, and its contract is a law of all values.
#![tactic(auto, unfolding(garde::specs::Fields::Known))]

ghost use Rattle.std.specs.Prelude.{◌≡◌, ◌≤◌, ◌≤ℤ◌, ◌↔◌, ◌⊎◌, ℕ, List, IfSome, IsSome, IsTrue, string_bytes, string_eq, vec_len};
ghost use Rattle.std.specs.List.{All};
ghost use Rattle.std.specs.BTreeMap.{btree_map_len};
ghost use Rattle.std.specs.BTreeSet.{btree_set_len};
ghost use Rattle.garde.specs.Fields.{◌and◌, alphanumeric, Any, AreApart, ascii, asks, asks_text, at_least, at_most, between, Bool, both, byte_count, bytes, char_count, chars, choose, codes, contains, contains_text, count, credit_card, each, each_in_any_order, each_of_option, each_value, each_value_in_any_order, either, exactly, Fault, field, grapheme_count, graphemes, if_some, index_part, ip, is, is_in_memory, item, items, Known, matches, None, none, not, of_option, Ok, Option, pattern, phone_number, prefix, prefix_text, range, required, required_if, signed_range, slice, Some, str, suffix, suffix_text, text_eq, text_key, unique, unit_count, url, utf16, when, with_message};
ghost use Rattle.garde.specs.Tree.{Tree};
ghost use Rattle.garde.specs.Words.{is_ascii_text, is_alphanumeric_text, is_ip_text, has_part, has_prefix, has_suffix, matches_source, url_answer};

use garde::Stated;
use garde::rules::credit_card::CreditCard;
use garde::rules::pattern::regex::Regex;
use garde::rules::phone_number::PhoneNumber;
use std::collections::{BTreeMap, BTreeSet, HashMap, HashSet};
use std::hash::Hash;

/// Of what is put together: both sides, and what stands under a component.
pub fn together<A: Stated, B: Stated>(a: &A, b: &B, c: &A::Context, d: &B::Context)
    ensures both { Known (A.visits a.now c.now and B.visits b.now d.now)
        ↔ (Known (A.visits a.now c.now) × Known (B.visits b.now d.now)) }
    ensures field { Known (field "name" (A.visits a.now c.now))
        ↔ Known (A.visits a.now c.now) }
    ensures item { Known (item 0 (A.visits a.now c.now)) ↔ Known (A.visits a.now c.now) }
    ensures none { Known none }
{}

/// Of a part that is asked under a condition.
pub fn conditions<A: Stated>(condition: bool, a: &A, c: &A::Context)
    ensures { Known (when condition (A.visits a.now c.now))
        ↔ (IsTrue condition → Known (A.visits a.now c.now)) }
{}

/// Of an option: that it has a value, always or under a condition, and what is asked of that one.
pub fn options<A: Stated>(value: &Option<A>, c: &A::Context, condition: bool)
    ensures required { Known (is (required value.now)) ↔ IsSome value.now }
    ensures required_if { Known (is (required_if condition value.now))
        ↔ (IsTrue condition → IsSome value.now) }
    ensures if_some { Known (if_some (λ x. A.visits x c.now) value.now)
        ↔ IfSome value.now (λ x. Known (A.visits x c.now)) }
    ensures each_of_option { Known (each_of_option (λ x. A.visits x c.now) value.now)
        ↔ IfSome value.now (λ x. Known (A.visits x c.now)) }
{}

/// Of a rule that is asked of an option as a whole: what it asks of the value that the option holds. The
/// trees are those of the rule under `if_some`.
pub fn whole_options<A>(value: &Option<A>)
    ensures of_option { (rule : A → Option Fault) → Known (is (of_option rule value.now))
        ↔ IfSome value.now (λ x. rule x ≡ None) }
    ensures as_if_some { (rule : A → Option Fault) → (tree : Tree) → (is (of_option rule value.now)).trees tree
        ↔ (if_some (λ x. is (rule x)) value.now).trees tree }
    ensures in_memory { (rule : A → Option Fault) → (tree : Tree) → (is_in_memory (of_option rule value.now)).trees tree
        ↔ (if_some (λ x. is_in_memory (rule x)) value.now).trees tree }
{}

/// Of the items of a list.
pub fn items<A: Stated>(list: &Vec<A>, c: &A::Context)
    ensures { Known (each (λ x. A.visits x c.now) (slice list.now))
        ↔ All (λ x. Known (A.visits x c.now)) list.now.items }
{}

/// Of the items of sets.
pub fn sets<A: Stated + Ord + Hash>(set: &BTreeSet<A>, hashed: &HashSet<A>, c: &A::Context)
    ensures set { Known (each (λ x. A.visits x c.now) set.now.keys)
        ↔ All (λ x. Known (A.visits x c.now)) set.now.keys }
    ensures hashed { Known (each_in_any_order (λ x. A.visits x c.now) hashed.now.keys)
        ↔ All (λ x. Known (A.visits x c.now)) hashed.now.keys }
{}

/// Of the values of maps.
pub fn values<A: Stated>(
    texts: &BTreeMap<String, A>,
    numbers: &BTreeMap<usize, A>,
    hashed: &HashMap<String, A>,
    c: &A::Context,
)
    ensures texts { Known (each_value text_key (λ x. A.visits x c.now) texts.now.entries)
        ↔ All (λ e. Known (A.visits e.1 c.now)) texts.now.entries }
    ensures numbers { Known (each_value index_part (λ x. A.visits x c.now) numbers.now.entries)
        ↔ All (λ e. Known (A.visits e.1 c.now)) numbers.now.entries }
    ensures hashed { Known (each_value_in_any_order text_key (λ x. A.visits x c.now) hashed.now.entries)
        ↔ All (λ e. Known (A.visits e.1 c.now)) hashed.now.entries }
{}

/// Of a list whose items differ: no two of them are the same.
pub fn apart<T>(list: &Vec<T>)
    ensures unique { (same : T → T → Bool) → Known (unique "message" same (slice list.now))
        ↔ AreApart same list.now.items }
{}

/// Of the rules of a text.
pub fn texts(text: &String, other: &String)
    ensures ascii { Known (is (ascii (str text.now))) ↔ IsTrue (is_ascii_text (string_bytes text.now)) }
    ensures alphanumeric { Known (is (alphanumeric (str text.now)))
        ↔ IsTrue (is_alphanumeric_text (string_bytes text.now)) }
    ensures ip { Known (is (ip Any (str text.now))) ↔ IsTrue (is_ip_text Any (string_bytes text.now)) }
    ensures matches { Known (is (matches "other" (text_eq (str text.now) (str other.now))))
        ↔ IsTrue (string_eq text.now other.now) }
{}

/// Of how long a text is, in bytes, characters, clusters and units.
pub fn lengths(text: &str, min: usize, max: usize)
    ensures between { Known (is (bytes (between min max) text.now))
        ↔ ((min ≤ byte_count text.now) × (byte_count text.now ≤ max)) }
    ensures most { Known (is (chars (at_most max) text.now)) ↔ (char_count text.now ≤ max) }
    ensures just { Known (is (graphemes (exactly max) text.now)) ↔ (grapheme_count text.now ≡ max) }
    ensures units { Known (is (utf16 (at_most max) text.now)) ↔ (unit_count text.now ≤ max) }
{}

/// Of numbers, without a sign and with one.
pub fn numbers(n: u32, min: u32, max: u32, i: i32, low: i32, high: i32)
    ensures between { Known (is (range (between min max) n)) ↔ ((min ≤ n) × (n ≤ max)) }
    ensures least { Known (is (range (at_least min) n)) ↔ (min ≤ n) }
    ensures most { Known (is (range (at_most max) n)) ↔ (n ≤ max) }
    ensures equal { Known (is (range (exactly max) n)) ↔ (n ≡ max) }
    ensures signed { Known (is (signed_range (between low high) i)) ↔ ((low ≤ℤ i) × (i ≤ℤ high)) }
    ensures signed_least { Known (is (signed_range (at_least low) i)) ↔ (low ≤ℤ i) }
    ensures signed_most { Known (is (signed_range (at_most high) i)) ↔ (i ≤ℤ high) }
{}

/// Of a user-defined rule, of your own message, and of a value that repeats another.
pub fn own(holds: bool)
    ensures asks { Known (is (asks "message" holds)) ↔ IsTrue holds }
    ensures asks_text { (message : List ℕ) → Known (is (asks_text message holds)) ↔ IsTrue holds }
    ensures matches { Known (is (matches "other" holds)) ↔ IsTrue holds }
    ensures with_message { (fault : Option Fault) → Known (is (with_message "message" fault)) ↔ (fault ≡ None) }
{}

/// Of two conditions that make one, and of a choice by a condition.
pub fn choices(a: bool, b: bool, one: u32, other: u32)
    ensures both { IsTrue (both a b) ↔ (IsTrue a × IsTrue b) }
    ensures either { IsTrue (either a b) ↔ (IsTrue a ⊎ IsTrue b) }
    ensures one { IsTrue a → choose a one other ≡ one }
    ensures other { IsTrue (not a) → choose a one other ≡ other }
{}

/// Of a compiled pattern, of a URL, of a card and of a phone.
pub fn engines<C: CreditCard, P: PhoneNumber>(text: &str, regex: &Regex, card: &C, phone: &P)
    ensures pattern { Known (is_in_memory (pattern regex.now text.now))
        ↔ IsTrue (matches_source regex.now text.now) }
    ensures url { Known (is_in_memory (url text.now)) ↔ (url_answer text.now ≡ Some (Ok tt)) }
    ensures card { Known (is (credit_card (C.answer card.now))) ↔ (C.answer card.now ≡ Ok tt) }
    ensures phone { Known (is (phone_number (P.answer phone.now))) ↔ (P.answer phone.now ≡ Ok tt) }
{}

/// Of how many items there are, and of another number that is counted.
pub fn counts(list: &Vec<u32>, set: &BTreeSet<u32>, map: &BTreeMap<u32, u32>, n: usize, most: usize)
    ensures list { Known (is (items (at_most most) (slice list.now))) ↔ (vec_len list.now ≤ most) }
    ensures set { Known (is (items (at_most most) set.now.keys)) ↔ (btree_set_len set.now ≤ most) }
    ensures map { Known (is (items (at_most most) map.now.entries)) ↔ (btree_map_len map.now ≤ most) }
    ensures count { Known (is (count (at_least most) n)) ↔ (most ≤ n) }
{}

/// Of the patterns that a text has as a part, begins with and ends with.
pub fn parts(text: &str, part: &str)
    ensures contains { Known (is (contains "@" text.now)) ↔ IsTrue (has_part (codes "@") text.now) }
    ensures prefix { Known (is (prefix "a" text.now)) ↔ IsTrue (has_prefix (codes "a") text.now) }
    ensures suffix { Known (is (suffix ".org" text.now)) ↔ IsTrue (has_suffix (codes ".org") text.now) }
    ensures contains_text { Known (is (contains_text part.now text.now)) ↔ IsTrue (has_part part.now text.now) }
    ensures prefix_text { Known (is (prefix_text part.now text.now)) ↔ IsTrue (has_prefix part.now text.now) }
    ensures suffix_text { Known (is (suffix_text part.now text.now)) ↔ IsTrue (has_suffix part.now text.now) }
{}
