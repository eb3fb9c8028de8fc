//! Code that relies on valid forms.
ghost use Rattle.std.specs.Prelude.{◌≡◌, Some};
ghost use Rattle.garde.specs.Fields.{is, Known, required};

use crate::sign_up::{SignUp, Topic};

impl Topic {
    /// Its name, as it is printed.
    pub fn name(self) -> &'static str {
        match self {
            Topic::News => "news",
            Topic::Events => "events",
        }
    }
}

/// The age of who signs up. A valid form has one, so nothing is tested.
#[tactic(auto, unfolding(garde::specs::Fields::Known))]
pub fn age(who: &SignUp<'_>) -> u8
    requires { Known (is (required who.now.age)) }
    ensures { Some result ≡ who.now.age }
{
    who.age.unwrap()
}
