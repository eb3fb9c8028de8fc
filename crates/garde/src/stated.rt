//! What a type states of its values.
ghost use Rattle.garde.specs.Visits.{Visits};

/// A type that states which values of it are valid.
///
/// A form that reads such a type, and a `Valid` of it, need no more. `Validate` is for types of
/// which a walk reports the faults.
pub trait Stated {
    /// What the rules of the type may ask for, as bounds that are known only at run time.
    type Context;

    /// The visits of a value under a context: its trees of faults.
    ghost visits: { Self → Self.Context → Visits };
}
