//! How a connection leaves that was ended from here.

ghost use Rattle.std.specs.Prelude.{◌≡◌, ℕ, ◌≤◌, ◌⊎◌, ◌↔◌, List, [], length, take, drop, IsSome, IsTrue, IfErr, Some};
ghost use Rattle.std.specs.Option.{option_map};
ghost use Rattle.njh_wire.specs.Leaving.{IsOver};

use crate::connection::{Connection, ConnectionRead};
use crate::end::Stop;
use crate::farewell::Farewell;

/// How many bytes are read at once of what is dropped.
const READ: usize = 4_096;

/// How often it is read at most before others have their turn.
const READS: usize = 256;

/// Whether nothing more is to be had of a connection that stopped so.
pub(crate) fn is_over(stop: Stop) -> bool
    ensures { IsTrue result ↔ IsOver stop }
{
    match stop {
        Stop::Full | Stop::Dry | Stop::Paused => false,
        Stop::Ended => true,
        Stop::Failed => true,
        Stop::Refused(_) => true,
    }
}

/// Lets a connection go on that is there: sends what waits for it, then no more, and drops what
/// comes. Answers why it gave no more.
pub(crate) fn let_go_on<C: Connection + Drop>(
    connection: &mut Option<C>,
    farewell: &mut Farewell,
) -> Stop
    requires { IsSome connection.old }
    ensures moved { (before after : C) × (came : List ℕ) × (count : ℕ) × (connection.old ≡ Some before)
        × (connection.new ≡ Some after) × (count ≤ length farewell.old.waiting)
        × C.moved before after came (take count farewell.old.waiting)
        × (farewell.new.waiting ≡ drop count farewell.old.waiting) × (IsOver result → C.stops after result) }
    ensures until { farewell.new.until ≡ farewell.old.until }
    ensures shut { IsTrue farewell.new.is_shut → (IsTrue farewell.old.is_shut ⊎ (farewell.new.waiting ≡ [])) }
    ensures place { option_map C.place_of connection.new ≡ option_map C.place_of connection.old }
{
    match connection {
        Some(connection) => let_go(connection, farewell),
        None => unreachable!(),
    }
}

/// Lets a connection go on.
fn let_go<C: Connection>(connection: &mut C, farewell: &mut Farewell) -> Stop
    ensures moved { (came : List ℕ) × (count : ℕ) × (count ≤ length farewell.old.waiting)
        × C.moved connection.old connection.new came (take count farewell.old.waiting)
        × (farewell.new.waiting ≡ drop count farewell.old.waiting) }
    ensures stops { IsOver result → C.stops connection.new result }
    ensures until { farewell.new.until ≡ farewell.old.until }
    ensures shut { IsTrue farewell.new.is_shut → (IsTrue farewell.old.is_shut ⊎ (farewell.new.waiting ≡ [])) }
    ensures place { C.place_of connection.new ≡ C.place_of connection.old }
{
    send_rest(connection, farewell);
    shut(connection, farewell);
    drain(connection)
}

/// Sends what waits, as far as it goes now. Where that fails none of it goes out: reading tells.
fn send_rest<C: Connection>(connection: &mut C, farewell: &mut Farewell)
    ensures moved { (count : ℕ) × (count ≤ length farewell.old.waiting)
        × C.moved connection.old connection.new [] (take count farewell.old.waiting)
        × (farewell.new ≡ record farewell.old { waiting = drop count farewell.old.waiting }) }
    ensures place { C.place_of connection.new ≡ C.place_of connection.old }
{
    match connection.send(farewell.waiting.as_slice()) {
        Ok(count) => farewell.waiting.remove_front(count),
        Err(_) => {}
    }
}

/// Sends no more, once nothing waits.
fn shut<C: Connection>(connection: &mut C, farewell: &mut Farewell)
    ensures moved { C.moved connection.old connection.new [] [] }
    ensures farewell { farewell.new ≡ record farewell.old { is_shut = farewell.new.is_shut } }
    ensures shut { IsTrue farewell.new.is_shut → (IsTrue farewell.old.is_shut ⊎ (farewell.old.waiting ≡ [])) }
    ensures place { C.place_of connection.new ≡ C.place_of connection.old }
{
    if farewell.waiting.is_empty() && !farewell.is_shut {
        farewell.is_shut = connection.shut();
    }
}

/// Drops what comes, and answers why no more does.
fn drain<C: Connection>(connection: &mut C) -> Stop
    ensures moved { (came : List ℕ) × C.moved connection.old connection.new came [] }
    ensures stops { IsOver result → C.stops connection.new result }
    ensures place { C.place_of connection.new ≡ C.place_of connection.old }
{
    for _ in 0..READS {
        match drop_some(connection) {
            Ok(()) => {}
            Err(stop) => return stop,
        }
    }
    Stop::Full
}

/// Drops what one read gives, or answers why none comes.
fn drop_some<C: Connection>(connection: &mut C) -> Result<(), Stop>
    ensures moved { (came : List ℕ) × C.moved connection.old connection.new came [] }
    ensures stops { IfErr result (λ stop. IsOver stop → C.stops connection.new stop) }
    ensures place { C.place_of connection.new ≡ C.place_of connection.old }
{
    let mut buffer = [0; READ];
    match connection.receive(&mut buffer) {
        Ok(ConnectionRead::Bytes(_)) => Ok(()),
        Ok(ConnectionRead::Paused) => Ok(()),
        Ok(ConnectionRead::Nothing) => Err(Stop::Dry),
        Ok(ConnectionRead::Ended) => Err(Stop::Ended),
        Ok(ConnectionRead::Refused(fault)) => Err(Stop::Refused(fault)),
        Err(_) => Err(Stop::Failed),
    }
}
