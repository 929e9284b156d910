//! A connection over TCP/IP.

ghost use Rattle.std.specs.Prelude.{◌≡◌, ◌≢◌, ◌<◌, ◌≤◌, ◌⊎◌, ℕ, [], false, length, take, IsTrue, IfOk, Ok, Some};
ghost use Rattle.njh_wire.specs.Moved.{IsReceived, IsStop, bytes_given, count_put_out};
ghost use Rattle.njh_wire.specs.OneFrame.{IsStrange};
ghost use Rattle.njh_link.specs.Links.{link_fault, with_said};
ghost use Rattle.njh_link.specs.declared.fault.LinkFault.{LinkFault};
ghost use Rattle.njh_tcpwire.specs.Moves.{IsAllGone, IsOfAnswer, IsOfRead, IsOfSend, Moves};
ghost use Rattle.njh_tcpwire.specs.Sayings.{frame_said, IsToldToSay};

mod reading;
mod sending;

use crate::unheard::Unheard;
use njh_link::Link;
use njh_table::Role;
use njh_tcp::Contact;
use njh_wire::{Connection, ConnectionFault, ConnectionRead, Saying};
use std::alloc::{AllocError, Global};
use std::marker::Model;

/// What stands between a line and its connection. A struct of its own: each field of a type with a
/// parameter costs proofs.
#[derive(Drop)]
struct Side {
    link: Link,
    /// What came on the other connection and wasn't heard yet.
    unheard: Unheard,
    /// The last byte of a frame that the line sends, until its TTB has gone out.
    charged: Option<u8>,
    /// Whether a read was given a frame's end, and no more is to be given to it.
    paused: bool,
    /// Whether the other connection may have more.
    more: bool,
}

/// The connection of a line over TCP/IP, over another one on which an OPEN was acknowledged.
///
/// It gives the bytes of a bisync line, one frame at a read at most: where a read has room left
/// behind a frame's end, the next call answers that it pauses. The last byte of a frame that the
/// line sends is taken once the TTB of that frame went out.
#[derive(Drop)]
pub struct TcpConnection<C: Connection + Drop> {
    inner: C,
    side: Side,
}

impl<C: Connection + Drop> Model for TcpConnection<C> {
    ghost use Rattle.njh_tcpwire.specs.Moves.{TcpState};

    ghost Value = { TcpState C };

    ghost view = { λ connection. record {
      inner = connection.inner;
      link = connection.side.link;
      unheard = connection.side.unheard;
      charged = connection.side.charged;
      paused = connection.side.paused;
      more = connection.side.more;
    } };
}

impl<C: Connection + Drop> TcpConnection<C> {
    ghost use Rattle.njh_tcpwire.specs.Moves.{first_tcp};

    /// Its contact hasn't begun. Takes all the memory that it needs.
    pub fn new(alloc: Global, inner: C, contact: Contact) -> Result<TcpConnection<C>, AllocError>
        ensures { IfOk result (λ connection. connection ≡ first_tcp inner contact) }
    {
        Ok(TcpConnection {
            inner,
            side: Side {
                link: Link::new(alloc, contact)?,
                unheard: Unheard::new(alloc)?,
                charged: None,
                paused: false,
                more: true,
            },
        })
    }
}

impl<C: Connection + Drop> Connection for TcpConnection<C> {
    ghost use Rattle.std.specs.Prelude.{⊤};
    ghost use Rattle.njh_tcpwire.specs.Moves.{IsOfLine};
    ghost use Rattle.njh_tcpwire.specs.code.MovesLaws.{moves_none, moves_then};

    ghost moved = { λ before after came went. Moves IsOfLine C.moved before after came went };

    ghost stops = { λ connection stop. ⊤ };

    ghost said = { λ before after saying. IsToldToSay before after saying };

    ghost place_of = { λ connection. C.place_of connection.inner };

    ghost none = { λ s. moves_none IsOfLine C.moved C.none s };

    ghost more = { λ a b c came next_came went next_went first then.
        moves_then IsOfLine C.moved C.more a b c came next_came went next_went first then };

    fn place(&self) -> usize {
        self.inner.place()
    }

    fn receive(&mut self, into: &mut [u8]) -> Result<ConnectionRead, ConnectionFault>
        requires { 0 < length into.old }
        ensures moved { Moves IsOfLine C.moved self.old self.new (bytes_given result into.new) [] }
        ensures within { IfOk result (IsReceived (length into.new)) }
        ensures stops { IsStop (λ stop. ⊤) result }
        ensures place { C.place_of self.new.inner ≡ C.place_of self.old.inner }
        ensures reads { Moves IsOfRead C.moved self.old self.new (bytes_given result into.new) [] }
        ensures paused { IsTrue self.old.paused → result ≡ Ok ConnectionRead.Paused }
        ensures pauses { (count : ℕ) → result ≡ Ok (ConnectionRead.Bytes count) → count < length into.new →
            IsTrue self.new.paused }
        ensures refused { (fault : LinkFault) → result ≡ Ok (ConnectionRead.Refused fault) →
            link_fault self.old.link ≡ Some fault }
    {
        self.read(into)
    }

    fn send(&mut self, bytes: &[u8]) -> Result<usize, ConnectionFault>
        ensures moved { Moves IsOfLine C.moved self.old self.new [] (take (count_put_out result) bytes.now) }
        ensures within { IfOk result (λ count. count ≤ length bytes.now) }
        ensures place { C.place_of self.new.inner ≡ C.place_of self.old.inner }
        ensures sends { Moves IsOfSend C.moved self.old self.new [] (take (count_put_out result) bytes.now) }
        ensures gone { IfOk result (λ count. IsAllGone bytes.now count self.new.link.waiting) }
    {
        self.take_all(bytes)
    }

    fn acknowledge(&mut self, into: &mut [u8]) -> usize
        ensures moved { Moves IsOfLine C.moved self.old self.new (take result into.new) [] }
        ensures within { result ≤ length into.new }
        ensures strange { IsStrange (take result into.new) }
        ensures none { result ≡ 0 → self.new ≡ self.old }
        ensures place { C.place_of self.new.inner ≡ C.place_of self.old.inner }
        ensures answers { Moves IsOfAnswer C.moved self.old self.new (take result into.new) [] }
        ensures silent { 0 < result → (self.old.more ≡ false) × (self.old.unheard ≡ []) }
    {
        self.answer(into)
    }

    fn by_tcp(self, _alloc: Global, _role: Role) -> Result<TcpConnection<C>, AllocError> {
        Ok(self)
    }

    fn say(&mut self, saying: Saying)
        ensures said { (self.new ≡ self.old) ⊎ IsToldToSay self.old self.new saying }
        ensures place { C.place_of self.new.inner ≡ C.place_of self.old.inner }
        ensures says { self.old.link.waiting ≡ [] →
            self.new ≡ record self.old { link = with_said (frame_said saying) self.old.link } }
        ensures waits { self.old.link.waiting ≢ [] → self.new ≡ self.old }
    {
        self.tell(saying);
    }

    fn shut(&mut self) -> bool
        ensures moved { Moves IsOfLine C.moved self.old self.new [] [] }
        ensures place { C.place_of self.new.inner ≡ C.place_of self.old.inner }
        ensures sends { Moves IsOfSend C.moved self.old self.new [] [] }
        ensures gone { IsTrue result → self.new.link.waiting ≡ [] }
    {
        self.finish()
    }
}
