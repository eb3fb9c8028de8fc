//! Components and paths as JSON trees.
ghost use Rattle.std.specs.Prelude.{◌≡◌, ◌≢◌, List, IfOk, Err, MatchOption};
ghost use Rattle.serde_json.specs.View.{view};
ghost use Rattle.garde_json.specs.Form.{Reads};
ghost use Rattle.garde_json.specs.Json.{part_json, path_json};
ghost use Rattle.garde_report.specs.Part.{Part, part};
ghost use Rattle.garde_json.specs.declared.refused.JsonRefused.{JsonRefused};

use super::form::pair;
use crate::JsonRefused;
use crate::kind::{kind_name, kind_named};
use crate::path::joined;
use garde_report::{Kind, Path};
use serde_json::{Value, json};
use std::alloc::{AllocError, Global};

fn component_to_json(alloc: Global, kind: Kind, text: &str) -> Result<Value, AllocError>
    ensures { IfOk result (λ tree. view tree ≡ part_json (part kind text.now)) }
{
    let kind = kind_name(kind);
    json!(in alloc; [kind, text])
}

// The kind and the text of a component.
fn component_from_json(tree: &Value) -> Option<(Kind, &str)>
    ensures { MatchOption result ((p : Part) → view tree.now ≢ part_json p)
        (λ both. view tree.now ≡ part_json (part both.0 both.1.now)) }
{
    let (kind, text) = pair(tree)?;
    let kind = kind_named(kind.as_str()?)?;
    Some((kind, text.as_str()?))
}

/// The written form of a path.
pub fn path_to_json(alloc: Global, path: &Path) -> Result<Value, AllocError>
    ensures { IfOk result (λ tree. view tree ≡ path_json path.now) }
{
    let mut items = Vec::new(alloc);
    let mut components = path.iter(alloc)?;
    while let Some((kind, text)) = components.next_back() {
        items.push(component_to_json(alloc, kind, text)?)?;
    }
    Ok(Value::Array(items))
}

// The path whose written form a tree is, where there is memory for it. All of the form is read where
// there is none.
pub(super) fn path_in(alloc: Global, tree: &Value) -> Option<Result<Path, AllocError>>
    ensures { Reads path_json (view tree.now) result }
{
    let mut path = Ok(Path::empty());
    for item in tree.as_array()? {
        let (kind, text) = component_from_json(item)?;
        path = joined(alloc, path, kind, text);
    }
    Some(path)
}

/// The path whose written form a tree is. `Form` is returned exactly where no path has that form,
/// whatever memory there is.
pub fn path_from_json(alloc: Global, tree: &Value) -> Result<Path, JsonRefused>
    ensures ok { IfOk result (λ path. path_json path ≡ view tree.now) }
    ensures form { result ≡ Err JsonRefused.Form
        → (path : List Part) → view tree.now ≢ path_json path }
    ensures refused { ((path : List Part) → view tree.now ≢ path_json path)
        → result ≡ Err JsonRefused.Form }
{
    match path_in(alloc, tree) {
        Some(Ok(path)) => Ok(path),
        Some(Err(_)) => Err(JsonRefused::Memory),
        None => Err(JsonRefused::Form),
    }
}
