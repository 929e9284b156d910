//! How a line gets its connections.

/// How a line gets its connections: it listens, or it dials. The types say by what: of an endpoint
/// a port or an address, of a line that is served a socket or its dials.
#[derive(Clone, Copy, Drop)]
pub enum Site<L, D> {
    /// Its peer connects to the hub.
    Listens(L),
    /// The hub connects to its peer.
    Dials(D),
}
