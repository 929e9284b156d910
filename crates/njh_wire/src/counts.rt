//! What a wire of a line counts.

/// What a wire counts. A struct of its own: each field of a type with a parameter costs proofs.
#[derive(Drop)]
pub(crate) struct Counts {
    /// How often it failed.
    pub(crate) failures: u64,
    /// How many bytes its reads answered.
    pub(crate) came: u64,
    /// How many bytes of frames it took to send.
    pub(crate) went: u64,
}
