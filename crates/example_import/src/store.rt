//! A table that takes valid rows alone.
ghost use Rattle.std.specs.Prelude.{◌≡◌, Bool, List, [], ◌∷◌, ◌++◌, IfOk, OnOk, OnErr, IsTrue};
ghost use Rattle.std.specs.String.{string_bytes};
ghost use Rattle.example_import.specs.Line.{Line, line_of, HasCode};
ghost use Rattle.example_import.specs.Import.{Tells};

use crate::row::Row;
use garde::Valid;

/// A table of rows, each of which has a code of its own. What is put into it between `begin` and
/// `commit` is kept together, or not at all. After a call that failed, `rollback` leaves what is kept,
/// and the table can be used again.
pub trait Store {
    /// Why the table was not read or changed.
    type Error;

    /// The lines of the table, in their order.
    ghost lines: { Self → List Line };

    /// Those that are kept whatever comes.
    ghost kept: { Self → List Line };

    ghost has_begun: { Self → Bool };

    /// What lies under the table gave back what was written to it, and is still open.
    ghost is_sound: { Self → Type 0 };

    /// Whether a row of the table has this code.
    fn has_code(&mut self, code: &str) -> Result<bool, Self::Error>
        ensures sound { is_sound self.new → is_sound self.old }
        ensures found { is_sound self.new → IfOk result (Tells code.now (lines self.old)) }
        ensures lines { is_sound self.new → OnOk result (lines self.new ≡ lines self.old) }
        ensures begun { is_sound self.new → OnOk result (has_begun self.new ≡ has_begun self.old) }
        ensures kept { is_sound self.new → kept self.new ≡ kept self.old };

    /// Puts a valid row behind the others.
    fn insert(&mut self, row: &Valid<Row>) -> Result<(), Self::Error>
        requires begun { is_sound self.old → IsTrue (has_begun self.old) }
        requires fresh { is_sound self.old → ¬ HasCode (string_bytes row.now.code) (lines self.old) }
        ensures sound { is_sound self.new → is_sound self.old }
        ensures lines { is_sound self.new
            → OnOk result (lines self.new ≡ lines self.old ++ line_of row.now ∷ []) }
        ensures begun { is_sound self.new → OnOk result (IsTrue (has_begun self.new)) }
        ensures kept { is_sound self.new → kept self.new ≡ kept self.old };

    /// Begins what is kept together.
    fn begin(&mut self) -> Result<(), Self::Error>
        ensures sound { is_sound self.new → is_sound self.old }
        ensures lines { is_sound self.new → OnOk result (lines self.new ≡ lines self.old) }
        ensures begun { is_sound self.new → OnOk result (IsTrue (has_begun self.new)) }
        ensures kept { is_sound self.new → kept self.new ≡ kept self.old };

    /// Keeps what was put into the table since `begin`. After an error it is not kept.
    fn commit(&mut self) -> Result<(), Self::Error>
        ensures sound { is_sound self.new → is_sound self.old }
        ensures lines { is_sound self.new → OnOk result (lines self.new ≡ lines self.old) }
        ensures ok { is_sound self.new → OnOk result (kept self.new ≡ lines self.old) }
        ensures err { is_sound self.new → OnErr result (kept self.new ≡ kept self.old) };

    /// Takes out again what was put into the table and is not kept.
    fn rollback(&mut self) -> Result<(), Self::Error>
        ensures sound { is_sound self.new → is_sound self.old }
        ensures ok { is_sound self.new → OnOk result (lines self.new ≡ kept self.old) }
        ensures kept { is_sound self.new → kept self.new ≡ kept self.old };
}
