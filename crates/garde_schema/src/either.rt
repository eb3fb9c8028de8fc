//! The value of one of two variants.

/// The value of the first variant, or of the second. Of three variants the second is again an `Either`.
#[derive(Clone, Copy, Debug, Drop, PartialEq, Eq)]
pub enum Either<A, B> {
    /// That of the first.
    Left(A),
    /// That of the second.
    Right(B),
}
