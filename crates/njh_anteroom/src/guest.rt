//! Who waits.

ghost use Rattle.std.specs.Prelude.{◌≡◌};
ghost use Rattle.njh_anteroom.specs.Waiting.{number_in};

use njh_table::number_of;
use std::net::SocketAddr;

/// A connection that waits to be given the line.
#[derive(Drop)]
pub struct Guest<C: Drop> {
    /// The connection.
    pub connection: C,
    /// From where it came.
    pub address: SocketAddr,
    /// When it came, in milliseconds.
    pub since: u64,
}

impl<C: Drop> Guest<C> {
    /// The number of its address.
    pub(crate) fn number(&self) -> u128
        ensures { result ≡ number_in self.now }
    {
        number_of(self.address.ip())
    }
}
