//! Laws of what a form reads. Each function does nothing, and its contract is a law for all values.
ghost use Rattle.std.specs.Prelude.{ℕ, Bool, List};
ghost use Rattle.json.specs.Json.{Json};
ghost use Rattle.garde_schema.specs.Forms.{FormTexts};
ghost use Rattle.garde_schema.specs.Nested.{ValueWhole, VisitsWhole};

use crate::form::Members;
use crate::nested::FromNested;

/// Of objects that hold objects of the same form, as `Nested` reads them: what is asked of an object
/// is asked of each object in it, at whatever depth, and its value holds that of each of them. None
/// is left out.
pub fn nested_objects<'a, T: FromNested, M: Members<'a, Out = T::Own>>()
    ensures visits { (members : M) (name : List ℕ) (closed : Bool) (texts : FormTexts) (j : Json)
        → VisitsWhole name closed (M.visits members) (M.names members) texts j }
    ensures value { (members : M) (name : List ℕ) (j : Json)
        → ValueWhole name (M.value members) T.builds j }
{}
