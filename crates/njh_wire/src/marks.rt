//! What a wire is told by who serves it.

/// What a wire is told by who serves it. A struct of its own: each field of a type with a parameter
/// costs proofs.
#[derive(Clone, Copy, Debug, PartialEq, Eq)]
pub(crate) struct Marks {
    /// Whether something may be there to read.
    pub(crate) readable: bool,
    /// Whether a session is up on its connection.
    pub(crate) up: bool,
    /// The time, in milliseconds.
    pub(crate) clock: u64,
}
