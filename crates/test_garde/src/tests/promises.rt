//! What a caller knows from the contracts alone.
ghost use Rattle.std.specs.Prelude.{◌≡◌, length, string_bytes, true, Ok, IsOk, IfSome};
ghost use Rattle.std.specs.List.{All};
ghost use Rattle.garde.specs.Words.{bounds_answer, is_ascii_text};

use crate::tests::user::User;
use garde::{Validate, ValidateError};
use std::alloc::Global;

/// Users of ASCII names of 3 to 25 bytes pass, whether there is memory or not.
pub fn pass(alloc: Global, users: &Vec<Option<User>>) -> Result<(), ValidateError>
    requires { All (λ user. IfSome user (λ user. (is_ascii_text (string_bytes user.username) ≡ true)
        × (bounds_answer 3 25 (length (string_bytes user.username)) ≡ Ok tt))) users.now.items }
    ensures { IsOk result }
{
    users.validate(alloc)
}
