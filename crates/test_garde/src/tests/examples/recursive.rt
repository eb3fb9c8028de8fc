//! What is reported for values that hold values of their own type.
use super::walks;
use crate::tests::{OrEnd, text_of};
use example_types::recursive::comment::Comment;
use example_types::recursive::expr::Expr;
use example_types::recursive::folder::Folder;
use example_types::recursive::menu::Menu;
use example_types::recursive::question::{Entry, Kind};
use example_types::recursive::tree::Tree;
use garde::Validate;
use garde::laws::nested_values;
use std::alloc::Global;
use std::collections::BTreeMap;
use std::process::Abort;

/// Whether this is reported for a value, which is dropped, and takes so many nodes.
fn is_told<V: Validate<Context = ()> + Drop>(
    rt: &impl Abort,
    alloc: Global,
    value: V,
    text: &str,
    nodes: usize,
) -> bool {
    walks::is_told(rt, alloc, &value, text, nodes)
}

/// A list of these items.
fn list<T: Drop, const N: usize>(rt: &impl Abort, alloc: Global, items: [T; N]) -> Vec<T> {
    Vec::from_array(alloc, items).or_end(rt)
}

/// The number -11 under a sign.
fn low(rt: &impl Abort, alloc: Global) -> Expr {
    Expr::Neg(Box::new(alloc, Expr::Num(-11)).or_end(rt))
}

/// The sum of two numbers beyond the bounds.
fn sum(rt: &impl Abort, alloc: Global) -> Expr {
    let right = Box::new(alloc, low(rt, alloc)).or_end(rt);
    Expr::Add(Box::new(alloc, Expr::Num(11)).or_end(rt), right)
}

/// A tree of this number and these trees.
fn tree(value: Expr, children: Vec<Tree<Expr>>) -> Tree<Expr> {
    Tree { value, children }
}

/// A tree of a number that is too great, on a valid one above one that is too low and on one that is
/// too great.
fn high(rt: &impl Abort, alloc: Global) -> Tree<Expr> {
    let leaves = list(rt, alloc, [tree(low(rt, alloc), Vec::new(alloc))]);
    let second = tree(Expr::Num(12), Vec::new(alloc));
    tree(
        Expr::Num(11),
        list(rt, alloc, [tree(Expr::Num(1), leaves), second]),
    )
}

#[test]
fn trees_of_values_of_a_type(rt: HostRuntime) {
    let numbers = "[0].num: greater than 10\n[1][0].num: lower than -10\n";
    let values =
        "value.num: greater than 10\nchildren[0].children[0].value[0].num: lower than -10\nchildren[1].value.num: greater than 10\n";
    assert!(rt;
        is_told(&rt, rt.alloc(), sum(&rt, rt.alloc()), numbers, 5)
            && is_told(&rt, rt.alloc(), Expr::Num(10), "", 0)
            && is_told(&rt, rt.alloc(), high(&rt, rt.alloc()), values, 12)
    );
}

/// A folder of this name with these folders in it.
fn folder(rt: &impl Abort, alloc: Global, name: &str, folders: Vec<Folder>) -> Folder {
    let name = text_of(rt, alloc, name);
    Folder { name, folders }
}

/// Folders in one whose name is too long: the first of them has one without a name in it, and the
/// last has no name.
fn folders(rt: &impl Abort, alloc: Global) -> Folder {
    let inner = list(rt, alloc, [folder(rt, alloc, "", Vec::new(alloc))]);
    let all = [
        folder(rt, alloc, "first", inner),
        folder(rt, alloc, "second", Vec::new(alloc)),
        folder(rt, alloc, "", Vec::new(alloc)),
    ];
    folder(rt, alloc, "a name too long", list(rt, alloc, all))
}

/// A thousand folders, each in the next, and in the last of them one that has no name.
fn deep(rt: &impl Abort, alloc: Global) -> Folder {
    let mut outer = folder(rt, alloc, "", Vec::new(alloc));
    for _ in 0..1000 {
        outer = folder(rt, alloc, "inner", list(rt, alloc, [outer]));
    }
    outer
}

/// Whether this is reported for the innermost of the thousand folders.
fn is_told_of_deep(rt: &impl Abort, alloc: Global, fault: &str, nodes: usize) -> bool {
    let mut told = "folders[0].".repeat(alloc, 1000).or_end(rt);
    told.push_str(fault).or_end(rt);
    is_told(rt, alloc, deep(rt, alloc), told.as_str(), nodes)
}

#[test]
fn folders_at_each_level(rt: HostRuntime) {
    let told =
        "name: length is greater than 9\nfolders[0].folders[0].name: length is lower than 1\nfolders[2].name: length is lower than 1\n";
    assert!(rt;
        is_told(&rt, rt.alloc(), folders(&rt, rt.alloc()), told, 8)
            && is_told_of_deep(&rt, rt.alloc(), "name: length is lower than 1\n", 2001)
    );
}

/// An entry of this kind and text, with these entries.
fn entry(rt: &impl Abort, alloc: Global, kind: Kind, told: &str, entries: Vec<Entry>) -> Entry {
    let text = text_of(rt, alloc, told);
    Entry {
        kind,
        text,
        entries,
    }
}

/// A question without a text, whose one answer is this, and from which a question without a text
/// follows.
fn question(rt: &impl Abort, alloc: Global, answer: &str) -> Entry {
    let last = entry(rt, alloc, Kind::Question, "", Vec::new(alloc));
    let given = entry(rt, alloc, Kind::Answer, answer, list(rt, alloc, [last]));
    entry(rt, alloc, Kind::Question, "", list(rt, alloc, [given]))
}

#[test]
fn questions_and_answers(rt: HostRuntime) {
    let answer = "an answer that is longer than forty signs";
    let long =
        "text: length is lower than 1\nentries[0].text: length is greater than 40\nentries[0].entries[0].text: length is lower than 1\n";
    let short =
        "text: length is lower than 1\nentries[0].entries[0].text: length is lower than 1\n";
    assert!(rt;
        is_told(&rt, rt.alloc(), question(&rt, rt.alloc(), answer), long, 7)
            && is_told(&rt, rt.alloc(), question(&rt, rt.alloc(), ""), short, 6)
    );
}

/// A comment of this text with these replies.
fn comment(rt: &impl Abort, alloc: Global, told: &str, replies: Vec<Comment>) -> Comment {
    let text = text_of(rt, alloc, told);
    Comment { text, replies }
}

/// A comment without a text, with a reply that has an empty one, and with an empty one.
fn thread(rt: &impl Abort, alloc: Global) -> Comment {
    let leaves = list(rt, alloc, [comment(rt, alloc, "", Vec::new(alloc))]);
    let second = comment(rt, alloc, "", Vec::new(alloc));
    let replies = [comment(rt, alloc, "first", leaves), second];
    comment(rt, alloc, "", list(rt, alloc, replies))
}

/// A menu of this label, with these menus under their names.
fn menu<const N: usize>(
    rt: &impl Abort,
    alloc: Global,
    label: &str,
    menus: [(String, Menu); N],
) -> Menu {
    Menu {
        label: text_of(rt, alloc, label),
        menus: BTreeMap::from_array(alloc, menus).or_end(rt),
    }
}

/// A menu without a label, with one of a label that is too long and with one that has a menu without
/// a label.
fn menus(rt: &impl Abort, alloc: Global) -> Menu {
    let recent = [(text_of(rt, alloc, "recent"), menu(rt, alloc, "", []))];
    let file = menu(rt, alloc, "File", recent);
    let view = menu(rt, alloc, "a label that is too long", []);
    let all = [
        (text_of(rt, alloc, "view"), view),
        (text_of(rt, alloc, "file"), file),
    ];
    menu(rt, alloc, "", all)
}

#[test]
fn menus_under_their_keys(rt: HostRuntime) {
    let texts =
        "text: length is lower than 1\nreplies[0].replies[0].text: length is lower than 1\nreplies[1].text: length is lower than 1\n";
    let labels =
        "label: length is lower than 1\nmenus.file.menus.recent.label: length is lower than 1\nmenus.view.label: length is greater than 20\n";
    assert!(rt;
        is_told(&rt, rt.alloc(), thread(&rt, rt.alloc()), texts, 8)
            && is_told(&rt, rt.alloc(), menus(&rt, rt.alloc()), labels, 8)
    );
}

#[test]
fn the_law_of_nested_values_is_called(_rt: HostRuntime) {
    nested_values::<Folder>();
    nested_values::<Tree<Expr>>();
}
