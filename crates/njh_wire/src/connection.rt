//! Connections whose calls never wait.

ghost use Rattle.std.specs.Prelude.{◌≡◌, ◌<◌, ◌≤◌, ◌⊎◌, [], ◌++◌, length, take, IfOk};
ghost use Rattle.njh_wire.specs.Moved.{IsReceived, IsStop, bytes_given, count_put_out};
ghost use Rattle.njh_wire.specs.OneFrame.{IsStrange};

use njh_link::LinkFault;
use njh_table::Role;
use std::alloc::{AllocError, Global};

/// What a read of a connection gives.
#[derive(Clone, Copy, Debug, PartialEq, Eq)]
pub enum ConnectionRead {
    /// So many bytes came, at least 1, and stand at the front of the buffer.
    Bytes(usize),
    /// Nothing is there now.
    Nothing,
    /// This read gives no more. The next may, though nothing comes meanwhile.
    Paused,
    /// The other end sends no more.
    Ended,
    /// What the other end sent isn't taken, or what the line said to it ends the connection: it
    /// gives no more.
    Refused(LinkFault),
}

/// What a hub says to its peer that the line doesn't write.
#[derive(Clone, Copy, Debug, PartialEq, Eq)]
pub enum Saying {
    /// That this end is there.
    KeepAlive,
    /// That no session comes of the peer's sign-on.
    SignOff,
}

/// A connection can't be used any more.
#[derive(Clone, Copy, Debug, PartialEq, Eq)]
pub struct ConnectionFault;

/// A connection of one line, whose calls never wait.
pub trait Connection {
    ghost use Rattle.std.specs.Prelude.{ℕ, List};
    ghost use Rattle.njh_table.specs.declared.Role.{Role};
    ghost use Rattle.njh_wire.specs.declared.connection.Saying.{Saying};
    ghost use Rattle.njh_wire.specs.declared.end.Stop.{Stop};

    /// Between these two states these bytes came in and these went out, each in order, and nothing
    /// else.
    ghost moved: { Self → Self → List ℕ → List ℕ → Type 0 };

    /// It came to this state by a read that said so why no more bytes come.
    ghost stops: { Self → Stop → Type 0 };

    /// Between these two states it was told to say this, which goes out as it sends. One that only
    /// carries bytes says nothing.
    ghost said: { Self → Self → Saying → Type 0 } = { λ before after saying. ⊥ };

    /// The place of the line that it is of, among those that are served.
    ghost place_of: { Self → ℕ };

    /// The one carries the frames of a line over TCP/IP on the other, which the end of this role made,
    /// and nothing moved yet.
    ghost over_tcp: { Role → Self → Self → Type 0 } = { λ role before after. after ≡ before };

    /// The place of its line.
    fn place(&self) -> usize
        ensures { result ≡ place_of self.now };

    /// Reads what is there, up to the length of the buffer. A fault gives no bytes.
    fn receive(&mut self, into: &mut [u8]) -> Result<ConnectionRead, ConnectionFault>
        requires { 0 < length into.old }
        ensures moved { moved self.old self.new (bytes_given result into.new) [] }
        ensures within { IfOk result (IsReceived (length into.new)) }
        ensures stops { IsStop (stops self.new) result }
        ensures place { place_of self.new ≡ place_of self.old };

    /// Sends as many of the bytes as go out now, and answers how many, 0 where none can. A fault
    /// sends none.
    fn send(&mut self, bytes: &[u8]) -> Result<usize, ConnectionFault>
        ensures moved { moved self.old self.new [] (take (count_put_out result) bytes.now) }
        ensures within { IfOk result (λ count. count ≤ length bytes.now) }
        ensures place { place_of self.new ≡ place_of self.old };

    /// Gives its line an answer in the place of its peer's, if it owes the line one: asked for while
    /// no byte waits to go out, after a read that gave none. Answers how many bytes that has. A
    /// connection that only carries bytes owes none.
    fn acknowledge(&mut self, into: &mut [u8]) -> usize
        ensures moved { moved self.old self.new (take result into.new) [] }
        ensures within { result ≤ length into.new }
        ensures strange { IsStrange (take result into.new) }
        ensures none { result ≡ 0 → self.new ≡ self.old }
        ensures place { place_of self.new ≡ place_of self.old }
    {
        0
    }

    /// From now on it carries the frames of a line over TCP/IP, on which the hub has this role. Out
    /// of memory is the only refusal. A connection that only carries bytes stays as it is.
    fn by_tcp(self, alloc: Global, role: Role) -> Result<Self, AllocError>
    where
        Self: Sized,
        ensures made { IfOk result (λ made. over_tcp role self made) }
        ensures place { IfOk result (λ made. place_of made ≡ place_of self) };

    /// Says what the line doesn't write, or nothing where that isn't of use. It goes out at the next
    /// send, also one of no bytes.
    fn say(&mut self, _saying: Saying)
        ensures said { (self.new ≡ self.old) ⊎ said self.old self.new _saying }
        ensures place { place_of self.new ≡ place_of self.old }
    {}

    /// Sends no more, once all went out that it took. What the other end sends still comes. Answers
    /// whether it sends no more.
    fn shut(&mut self) -> bool
        ensures moved { moved self.old self.new [] [] }
        ensures place { place_of self.new ≡ place_of self.old }
    {
        true
    }

    /// Nothing moved where nothing happened.
    ghost none: { (s : Self) → moved s s [] [] };

    /// Some bytes, and then more.
    ghost more: { (a b c : Self) (came next_came went next_went : List ℕ) → moved a b came went →
        moved b c next_came next_went → moved a c (came ++ next_came) (went ++ next_went) };
}
