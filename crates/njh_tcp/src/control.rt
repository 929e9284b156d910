//! Control records, which come before TTBs.
ghost use Rattle.std.specs.Prelude.{◌≡◌, ◌≤◌, ◌↔◌, length, take, IsTrue};
ghost use Rattle.njh_tcp.specs.Controls.{hosts_in};

use arrayvec::ArrayVec;
use njh_ebcdic::Name;

/// How many bytes a control record has.
pub const CONTROL_RECORD: usize = 33;

/// How many bytes a name has in it.
const HOST: usize = 8;

/// An address, which is not told.
const NO_ADDRESS: [u8; 4] = [0; 4];

/// OPEN in EBCDIC.
const OPEN: [u8; HOST] = [0xd6, 0xd7, 0xc5, 0xd5, 0x40, 0x40, 0x40, 0x40];

/// ACK in EBCDIC.
const ACK: [u8; HOST] = [0xc1, 0xc3, 0xd2, 0x40, 0x40, 0x40, 0x40, 0x40];

/// NAK in EBCDIC.
const NAK: [u8; HOST] = [0xd5, 0xc1, 0xd2, 0x40, 0x40, 0x40, 0x40, 0x40];

/// Why a NAK is sent: there is no link between the two, or the names are wrong.
pub const NO_LINK: u8 = 1;

/// Why a NAK is sent: the link is active.
pub const LINK_ACTIVE: u8 = 2;

/// Why a NAK comes: both ends open. It is never sent.
pub const BOTH_OPEN: u8 = 3;

/// Why a NAK is sent: not now.
pub const NOT_NOW: u8 = 4;

/// The names in a control record, as they came, whatever bytes these are.
#[derive(Clone, Copy, Debug, PartialEq, Eq)]
pub struct Hosts {
    /// RHOST: who sends it.
    pub from: [u8; HOST],
    /// OHOST: to whom.
    pub to: [u8; HOST],
}

/// A control record (NJE over TCP/IP).
#[derive(Clone, Copy, Debug, PartialEq, Eq)]
pub enum ControlRecord {
    /// The end that dialled asks for the link.
    Open(Hosts),
    /// It has it.
    Ack(Hosts),
    /// It hasn't, for this reason.
    Nak(Hosts, u8),
}

impl Hosts {
    ghost use Rattle.njh_tcp.specs.Controls.{exchanged, fields};

    /// Those of a record that one node sends to another.
    pub fn new(from: &Name, to: &Name) -> Hosts
        ensures from { result.from ≡ from.now }
        ensures to { result.to ≡ to.now }
    {
        Hosts {
            from: from.bytes(),
            to: to.bytes(),
        }
    }

    /// Those of the answer, so that it tells no name but the asker's own.
    pub fn exchanged(&self) -> Hosts
        ensures { result ≡ exchanged self.now }
    {
        Hosts {
            from: self.to,
            to: self.from,
        }
    }

    /// A control record of this type and reason.
    fn written(&self, kind: [u8; HOST], reason: u8) -> ArrayVec<u8, CONTROL_RECORD>
        ensures { result.items ≡ fields kind self.now reason }
    {
        let mut bytes = ArrayVec::new();
        bytes.try_extend_from_slice(&kind).unwrap();
        bytes.try_extend_from_slice(&self.from).unwrap();
        bytes.try_extend_from_slice(&NO_ADDRESS).unwrap();
        bytes.try_extend_from_slice(&self.to).unwrap();
        bytes.try_extend_from_slice(&NO_ADDRESS).unwrap();
        bytes.push(reason);
        bytes
    }

    /// Whether this node sends it, and to that one: both names have to be right.
    pub fn are(&self, from: &Name, to: &Name) -> bool
        ensures { IsTrue result ↔ ((self.now.from ≡ from.now) × (self.now.to ≡ to.now)) }
    {
        self.from == from.bytes() && self.to == to.bytes()
    }
}

impl ControlRecord {
    ghost use Rattle.njh_tcp.specs.Controls.{control_bytes, control_in};

    /// What 33 bytes are, if a control record. Of the addresses in it nothing is looked at, nor of R
    /// in OPEN and ACK.
    #[tactic(auto, unfolding(crate::specs::Controls::control_in))]
    pub fn read(bytes: &[u8]) -> Option<ControlRecord>
        requires { length bytes.now ≡ 33 }
        ensures { result ≡ control_in bytes.now }
    {
        let hosts = hosts_in(bytes);
        if bytes.starts_with(&OPEN) {
            Some(ControlRecord::Open(hosts))
        } else if bytes.starts_with(&ACK) {
            Some(ControlRecord::Ack(hosts))
        } else if bytes.starts_with(&NAK) {
            Some(ControlRecord::Nak(hosts, bytes[32]))
        } else {
            None
        }
    }

    /// Its 33 bytes. The addresses are 0.
    pub fn write(&self) -> ArrayVec<u8, CONTROL_RECORD>
        ensures { result.items ≡ control_bytes self.now }
    {
        match self {
            ControlRecord::Open(hosts) => hosts.written(OPEN, 0),
            ControlRecord::Ack(hosts) => hosts.written(ACK, 0),
            ControlRecord::Nak(hosts, reason) => hosts.written(NAK, *reason),
        }
    }
}

/// The names in 33 bytes.
pub(crate) fn hosts_in(bytes: &[u8]) -> Hosts
    requires { length bytes.now ≡ 33 }
    ensures { result ≡ hosts_in bytes.now }
{
    Hosts {
        from: host_at(&bytes[8..]),
        to: host_at(&bytes[20..]),
    }
}

/// The name at the front of some bytes.
fn host_at(bytes: &[u8]) -> [u8; HOST]
    requires { 8 ≤ length bytes.now }
    ensures { result ≡ take 8 bytes.now }
{
    let mut host = [0; HOST];
    host.copy_from_slice(&bytes[..HOST]);
    host
}
