//! What becomes of a connection that comes.

/// What becomes of a connection that comes.
#[derive(Clone, Copy)]
pub enum Entry {
    /// It takes the place of the older connection of its address, which is dropped: this one in the
    /// order.
    Renewed(usize),
    /// It waits behind all others.
    Added,
    /// It waits behind all others, and who stood at this place in the order is dropped.
    Displaced(usize),
    /// It is dropped itself.
    TurnedAway,
}
