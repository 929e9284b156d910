//! What a customer may use of the spool.

/// How many blocks a customer's files may take together, and how many files it may have, partial
/// ones among them.
#[derive(Clone, Copy, Debug, PartialEq, Eq)]
pub struct Quota {
    pub blocks: u32,
    pub files: u32,
}
