//! A line's entry in the table.

ghost use Rattle.std.specs.Prelude.{◌≡◌, Some, None};
ghost use Rattle.njh_table.specs.TableFile.{password_bytes};

use crate::address_ranges::AddressRanges;
use crate::{Protocol, Role};
use njh_ebcdic::Name;
use std::marker::Model;
use std::net::SocketAddr;

/// A line: its name on this hub, and what its customer's entry says of it.
#[derive(Drop)]
pub struct NamedLine {
    pub(crate) name: String,
    pub(crate) node: Name,
    pub(crate) role: Role,
    pub(crate) block: u16,
    pub(crate) streams: u8,
    pub(crate) password: Option<Name>,
    pub(crate) port: u16,
    pub(crate) peer: Option<SocketAddr>,
    pub(crate) from: AddressRanges,
    pub(crate) protocol: Protocol,
    pub(crate) up: bool,
}

impl Model for NamedLine {
    ghost use Rattle.std.specs.String.{string_bytes};
    ghost use Rattle.njh_table.specs.TableFile as table;
    ghost use Rattle.njh_table.specs.TableFile.{password_bytes};

    ghost Value = { table.NamedLine };

    ghost view = { λ l. record {
      name = string_bytes l.name;
      port = l.port;
      peer = l.peer;
      from = l.from;
      protocol = l.protocol;
      up = l.up;
      entry = record {
        node = l.node;
        role = l.role;
        block = l.block;
        streams = l.streams;
        password = password_bytes l.password;
      };
    } };
}

impl NamedLine {
    /// The name: 1 to 8 letters and digits of ASCII.
    pub fn name(&self) -> &str
        ensures { result.now ≡ self.now.name }
    {
        self.name.as_str()
    }

    /// The node at the other end.
    pub fn node(&self) -> Name
        ensures { result ≡ self.now.entry.node }
    {
        self.node
    }

    /// Which end makes contact.
    pub fn role(&self) -> Role
        ensures { result ≡ self.now.entry.role }
    {
        self.role
    }

    /// The greatest size of a block's text, in bytes before doubling.
    pub fn block(&self) -> u16
        ensures { result ≡ self.now.entry.block }
    {
        self.block
    }

    /// How many SYSIN streams the line has, and as many SYSOUT streams.
    pub fn streams(&self) -> u8
        ensures { result ≡ self.now.entry.streams }
    {
        self.streams
    }

    /// The password that a sign-on must give, if one is wanted.
    pub fn password(&self) -> Option<Name>
        ensures { password_bytes result ≡ self.now.entry.password }
    {
        self.password
    }

    /// The port on which the line's peer connects; 0 where there is none.
    pub fn port(&self) -> u16
        ensures { result ≡ self.now.port }
    {
        self.port
    }

    /// The address and the port at which the line's peer listens, where the hub is to connect to
    /// it. Such a line has the port 0, and the peer's port isn't 0.
    pub fn peer(&self) -> Option<SocketAddr>
        ensures { result ≡ self.now.peer }
    {
        self.peer
    }

    /// From where the line's peer may connect. A line that takes connections from some addresses
    /// alone has a port of its own.
    pub fn from(&self) -> &AddressRanges
        ensures { result.now ≡ self.now.from }
    {
        &self.from
    }

    /// How the line's bytes are written on its connections. Over TCP a line that calls has no port,
    /// and one that answers no peer's address: who connects makes contact.
    pub fn protocol(&self) -> Protocol
        ensures { result ≡ self.now.protocol }
    {
        self.protocol
    }

    /// Whether the line is marked as up, by `Tables::set_up`; a table file gives no mark.
    pub fn is_up(&self) -> bool
        ensures { result ≡ self.now.up }
    {
        self.up
    }
}
