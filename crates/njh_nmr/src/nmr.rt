//! Reading, writing and answering nodal messages.

ghost use Rattle.std.specs.Prelude.{◌≡◌, ◌+◌, ◌≤◌, IfOk, length};
ghost use Rattle.njh_nmr.specs.Nodal.{longest_message, node_of};
ghost use Rattle.njh_record.specs.Bytes.{field};

use crate::fault::NmrFault;
use arrayvec::ArrayVec;
use njh_ebcdic::{FIELD, Name};
use njh_record::{Record, field_at, put_bytes};
use std::marker::Model;

/// The most bytes that a message has.
pub const LONGEST_MESSAGE: usize = 148;

/// The places of a record's fields (IBM SC23-0070, "Nodal message record").
const FLAG: usize = 0;

const LEVEL: usize = 1;

const KIND: usize = 2;

const LENGTH: usize = 3;

const TO: usize = 4;

const TO_QUALIFIER: usize = 12;

const USER: usize = 13;

const ORIGIN: usize = 21;

const ORIGIN_QUALIFIER: usize = 29;

const MESSAGE: usize = 30;

/// The flag's bits: a command; the user field holds a user.
const COMMAND: u8 = 0x80;

const OF_USER: u8 = 0x20;

/// The level and the type of what the hub says.
const HUB_LEVEL: u8 = 0x77;

const HUB_KIND: u8 = 0x00;

/// The qualifier of a node that has no members.
const NO_QUALIFIER: u8 = 0x00;

/// A message or a command, with the nodes that it goes to and comes from. The user is the sender
/// of a command and the receiver of a message.
#[derive(Debug, Drop)]
pub struct Nmr {
    flag: u8,
    level: u8,
    kind: u8,
    to: Name,
    to_qualifier: u8,
    user: [u8; FIELD],
    origin: Name,
    origin_qualifier: u8,
    message: ArrayVec<u8, LONGEST_MESSAGE>,
}

impl Model for Nmr {
    ghost use Rattle.njh_nmr.specs.Nodal.{Nodal};

    ghost Value = { Nodal };

    ghost view = { λ n. record {
      flag = n.flag;
      level = n.level;
      kind = n.kind;
      to = n.to;
      to_qualifier = n.to_qualifier;
      user = n.user;
      origin = n.origin;
      origin_qualifier = n.origin_qualifier;
      message = n.message.items;
    } };
}

impl Nmr {
    ghost use Rattle.njh_nmr.specs.Nodal.{nodal_of, record_of, cut_after_message, IsMessage, is_user_command};
    ghost use Rattle.njh_nmr.specs.Nodal.{notice_to, notice_record};

    /// The message that a record holds; what comes after it in the record is not read.
    pub fn read(bytes: &[u8]) -> Result<Nmr, NmrFault>
        ensures read { result ≡ nodal_of bytes.now }
        ensures sent_on { IfOk result (λ n. record_of n ≡ cut_after_message bytes.now) }
    {
        if bytes.len() < MESSAGE {
            return Err(NmrFault::TooShort);
        }
        let length = usize::from(bytes[LENGTH]);
        if length > LONGEST_MESSAGE || length > bytes.len() - MESSAGE {
            return Err(NmrFault::BadLength);
        }
        let to = name_at(bytes, TO)?;
        let origin = name_at(bytes, ORIGIN)?;
        Ok(Nmr {
            flag: bytes[FLAG],
            level: bytes[LEVEL],
            kind: bytes[KIND],
            to,
            to_qualifier: bytes[TO_QUALIFIER],
            user: field_at(bytes, USER),
            origin,
            origin_qualifier: bytes[ORIGIN_QUALIFIER],
            message: message_of(&bytes[MESSAGE..MESSAGE + length]),
        })
    }

    /// Writes the record of the message, in place of what was there.
    pub fn write(&self, out: &mut Record)
        ensures bytes { out.new.items ≡ record_of self.now }
        ensures whole { IsMessage self.now }
    {
        out.clear();
        let length = self.message.len() as u8;
        put_bytes(out, &[self.flag, self.level, self.kind, length]);
        put_bytes(out, &self.to.bytes());
        out.push(self.to_qualifier);
        put_bytes(out, &self.user);
        put_bytes(out, &self.origin.bytes());
        out.push(self.origin_qualifier);
        put_bytes(out, &self.message);
    }

    /// Writes the record of what the hub says to a user at a node, in place of what was there. No
    /// message is made first.
    pub fn write_notice(hub: Name, node: Name, user: [u8; FIELD], text: &[u8], out: &mut Record)
        requires { length text.now ≤ longest_message }
        ensures bytes { out.new.items ≡ notice_record hub (record { node = node; user = user }) text.now }
        ensures said { out.new.items ≡ record_of (notice_to (record { node = node; user = user }) hub text.now) }
    {
        let length = text.len() as u8;
        set_bytes(out, &[OF_USER, HUB_LEVEL, HUB_KIND, length]);
        put_bytes(out, &node.bytes());
        out.push(NO_QUALIFIER);
        put_bytes(out, &user);
        put_bytes(out, &hub.bytes());
        out.push(NO_QUALIFIER);
        put_bytes(out, text);
    }

    /// The node that the message goes to.
    pub fn to(&self) -> Name
        ensures { result ≡ self.now.to }
    {
        self.to
    }

    /// The node that the message comes from.
    pub fn origin(&self) -> Name
        ensures { result ≡ self.now.origin }
    {
        self.origin
    }

    /// The user field: any eight bytes.
    pub fn user(&self) -> [u8; FIELD]
        ensures { result ≡ self.now.user }
    {
        self.user
    }

    /// The message's bytes.
    pub fn message(&self) -> &[u8]
        ensures value { result.now ≡ self.now.message }
        ensures few { length result.now ≤ longest_message }
    {
        &self.message
    }

    /// Whether this is a command whose user field holds its sender.
    pub fn is_user_command(&self) -> bool
        ensures { result ≡ is_user_command self.now }
    {
        self.flag & COMMAND != 0 && self.flag & OF_USER != 0
    }
}

/// Puts the first bytes of a record in place of what was there.
fn set_bytes(out: &mut Record, bytes: &[u8])
    requires { length bytes.now ≤ 256 }
    ensures { out.new.items ≡ bytes.now }
{
    out.truncate(0);
    put_bytes(out, bytes);
}

/// The name that a field holds.
fn name_at(bytes: &[u8], place: usize) -> Result<Name, NmrFault>
    requires { place + 8 ≤ length bytes.now }
    ensures { result ≡ node_of (field place 8 bytes.now) }
{
    Name::of_bytes(&bytes[place..place + FIELD]).map_err(|_| NmrFault::BadName)
}

/// A message in room of its own.
fn message_of(text: &[u8]) -> ArrayVec<u8, LONGEST_MESSAGE>
    requires { length text.now ≤ longest_message }
    ensures { result.items ≡ text.now }
{
    let mut message = ArrayVec::new();
    message.try_extend_from_slice(text).unwrap();
    message
}
