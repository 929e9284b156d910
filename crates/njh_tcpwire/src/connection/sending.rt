//! How what a line writes goes out on a connection over TCP/IP.

ghost use Rattle.std.specs.Prelude.{◌≡◌, ◌≢◌, ◌<◌, ◌≤◌, [], ◌∷◌, true, length, take, IfOk, IsTrue, Ok, Some, None};
ghost use Rattle.njh_link.specs.Links.{with_said};
ghost use Rattle.njh_wire.specs.Moved.{count_put_out};
ghost use Rattle.njh_tcpwire.specs.Moves.{count_taken, IsAllGone, IsOfSend, Moves};
ghost use Rattle.njh_tcpwire.specs.Sayings.{frame_said};

use super::TcpConnection;
use njh_wire::{Connection, ConnectionFault, Saying};

impl<C: Connection + Drop> TcpConnection<C> {
    /// Sends what waits, as far as it goes now, and answers whether all went out.
    fn push(&mut self) -> Result<bool, ConnectionFault>
        ensures moved { Moves IsOfSend C.moved self.old self.new [] [] }
        ensures all { result ≡ Ok true → self.new.link.waiting ≡ [] }
        ensures idle { self.old.link.waiting ≡ [] → self.new.link.waiting ≡ [] }
        ensures charged { self.new.charged ≡ self.old.charged }
        ensures place { C.place_of self.new.inner ≡ C.place_of self.old.inner }
    {
        if self.side.link.is_sent() {
            return Ok(true);
        }
        match self.inner.send(self.side.link.waiting()) {
            Ok(count) => {
                self.side.link.sent(count);
                Ok(self.side.link.is_sent())
            }
            Err(fault) => Err(fault),
        }
    }

    /// Takes the byte that was charged, once its TTB went out.
    fn settle(&mut self, byte: u8)
        requires { self.old.charged ≡ Some byte }
        ensures moved { Moves IsOfSend C.moved self.old self.new [] (byte ∷ []) }
        ensures link { self.new.link ≡ self.old.link }
        ensures place { C.place_of self.new.inner ≡ C.place_of self.old.inner }
    {
        self.side.charged = None;
    }

    /// Takes bytes up to the end of a frame, or all. Where a TTB is to go out, the last one is
    /// charged.
    fn take_frame(&mut self, bytes: &[u8]) -> usize
        requires some { 0 < length bytes.now }
        requires gone { self.old.link.waiting ≡ [] }
        requires settled { self.old.charged ≡ None }
        ensures moved { Moves IsOfSend C.moved self.old self.new [] (take result bytes.now) }
        ensures within { result ≤ length bytes.now }
        ensures gone { result ≡ length bytes.now → self.new.link.waiting ≡ [] }
        ensures place { C.place_of self.new.inner ≡ C.place_of self.old.inner }
    {
        let count = self.side.link.write(bytes);
        if self.side.link.is_sent() {
            return count;
        }
        let last = count - 1;
        self.side.charged = Some(bytes[last]);
        last
    }

    /// Takes some bytes of the line, after what waits has gone out. Answers how many, or nothing
    /// where no more goes out now, or is there.
    fn take_some(&mut self, bytes: &[u8]) -> Result<Option<usize>, ConnectionFault>
        ensures moved { Moves IsOfSend C.moved self.old self.new [] (take (count_taken result) bytes.now) }
        ensures within { count_taken result ≤ length bytes.now }
        ensures gone { IsAllGone bytes.now (count_taken result) self.new.link.waiting }
        ensures idle { bytes.now ≡ [] → self.old.link.waiting ≡ [] → self.new.link.waiting ≡ [] }
        ensures place { C.place_of self.new.inner ≡ C.place_of self.old.inner }
    {
        match self.push() {
            Ok(is_out) => {
                if !is_out || bytes.is_empty() {
                    return Ok(None);
                }
                self.take_next(bytes)
            }
            Err(fault) => Err(fault),
        }
    }

    /// Takes some bytes of the line, or the one that was charged.
    fn take_next(&mut self, bytes: &[u8]) -> Result<Option<usize>, ConnectionFault>
        requires some { 0 < length bytes.now }
        requires gone { self.old.link.waiting ≡ [] }
        ensures moved { Moves IsOfSend C.moved self.old self.new [] (take (count_taken result) bytes.now) }
        ensures within { count_taken result ≤ length bytes.now }
        ensures gone { IsAllGone bytes.now (count_taken result) self.new.link.waiting }
        ensures place { C.place_of self.new.inner ≡ C.place_of self.old.inner }
    {
        match self.side.charged {
            Some(byte) => {
                if byte != bytes[0] {
                    return Err(ConnectionFault);
                }
                self.settle(byte);
                Ok(Some(1))
            }
            None => Ok(Some(self.take_frame(bytes))),
        }
    }

    /// What a send does.
    pub(super) fn take_all(&mut self, bytes: &[u8]) -> Result<usize, ConnectionFault>
        ensures moved { Moves IsOfSend C.moved self.old self.new [] (take (count_put_out result) bytes.now) }
        ensures within { IfOk result (λ count. count ≤ length bytes.now) }
        ensures gone { IfOk result (λ count. IsAllGone bytes.now count self.new.link.waiting) }
        ensures place { C.place_of self.new.inner ≡ C.place_of self.old.inner }
    {
        let mut taken = 0;
        for _ in 0..u64::MAX {
            match self.take_some(&bytes[taken..]) {
                Ok(Some(count)) => taken += count,
                Ok(None) => return Ok(taken),
                Err(fault) if taken == 0 => return Err(fault),
                Err(_) => return Ok(taken),
            }
        }
        Ok(taken)
    }

    /// Says this, unless something waits to go out, which says that this end is there too, and which
    /// a peer doesn't take to whom nothing else is to be said. It goes out at the next send.
    pub(super) fn tell(&mut self, saying: Saying)
        ensures says { self.old.link.waiting ≡ [] →
            self.new ≡ record self.old { link = with_said (frame_said saying) self.old.link } }
        ensures waits { self.old.link.waiting ≢ [] → self.new ≡ self.old }
    {
        if !self.side.link.is_sent() {
            return;
        }
        match saying {
            Saying::KeepAlive => self.side.link.keep_alive(),
            Saying::SignOff => self.side.link.sign_off(),
        }
    }

    /// Sends on what waits, and once nothing does has the other connection send no more. Answers
    /// whether it doesn't.
    pub(super) fn finish(&mut self) -> bool
        ensures moved { Moves IsOfSend C.moved self.old self.new [] [] }
        ensures gone { IsTrue result → self.new.link.waiting ≡ [] }
        ensures place { C.place_of self.new.inner ≡ C.place_of self.old.inner }
    {
        match self.push() {
            Ok(true) => self.shut_inner(),
            Ok(false) => false,
            Err(_) => false,
        }
    }

    /// Has the other connection send no more.
    fn shut_inner(&mut self) -> bool
        ensures moved { Moves IsOfSend C.moved self.old self.new [] [] }
        ensures link { self.new.link ≡ self.old.link }
        ensures place { C.place_of self.new.inner ≡ C.place_of self.old.inner }
    {
        self.inner.shut()
    }
}
