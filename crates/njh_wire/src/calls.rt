//! Calls of a connection that may be there.

ghost use Rattle.std.specs.Prelude.{◌≡◌, ◌≢◌, ◌<◌, ◌≤◌, ◌⊎◌, [], length, take, IsSome, IsTrue, IfErr, IfOk, Some};
ghost use Rattle.std.specs.Option.{option_map};
ghost use Rattle.njh_wire.specs.Moved.{byte_given};
ghost use Rattle.njh_wire.specs.OneFrame.{IsStrange};
ghost use Rattle.njh_wire.specs.Readings.{Sends};
ghost use Rattle.njh_wire.specs.declared.end.Stop.TheVariants.{Full};

use crate::connection::{Connection, ConnectionFault, ConnectionRead, Saying};
use crate::end::Stop;
use crate::frame_end::may_end;

/// How many bytes a read holds at most on a connection without a session.
const STRANGERS_ROOM: usize = 256;

/// Reads a connection until the buffer is full or nothing more comes, and answers how many bytes
/// came and why no more.
fn receive_all<C: Connection>(connection: &mut C, into: &mut [u8]) -> (usize, Stop)
    ensures moved { C.moved connection.old connection.new (take result.0 into.new) [] }
    ensures within { result.0 ≤ length into.new }
    ensures full { result.1 ≡ Full → result.0 ≡ length into.new }
    ensures stops { result.1 ≢ Full → C.stops connection.new result.1 }
    ensures place { C.place_of connection.new ≡ C.place_of connection.old }
{
    let mut count = 0;
    while count < into.len() {
        let (_, rest) = into.split_at_mut(count);
        match connection.receive(rest) {
            Ok(ConnectionRead::Bytes(more)) => count += more,
            Ok(ConnectionRead::Nothing) => return (count, Stop::Dry),
            Ok(ConnectionRead::Paused) => return (count, Stop::Paused),
            Ok(ConnectionRead::Ended) => return (count, Stop::Ended),
            Ok(ConnectionRead::Refused(fault)) => return (count, Stop::Refused(fault)),
            Err(_) => return (count, Stop::Failed),
        }
    }
    (count, Stop::Full)
}

/// Reads one byte of a connection, or answers why none comes.
pub fn receive_byte<C: Connection>(connection: &mut C) -> Result<u8, Stop>
    ensures moved { C.moved connection.old connection.new (byte_given result) [] }
    ensures stops { IfErr result (λ stop. (stop ≢ Full) × C.stops connection.new stop) }
    ensures place { C.place_of connection.new ≡ C.place_of connection.old }
{
    let mut byte = [0];
    match connection.receive(&mut byte) {
        Ok(ConnectionRead::Bytes(_)) => Ok(byte[0]),
        Ok(ConnectionRead::Nothing) => Err(Stop::Dry),
        Ok(ConnectionRead::Paused) => Err(Stop::Paused),
        Ok(ConnectionRead::Ended) => Err(Stop::Ended),
        Ok(ConnectionRead::Refused(fault)) => Err(Stop::Refused(fault)),
        Err(_) => Err(Stop::Failed),
    }
}

/// Reads a connection up to the first byte that may end a frame, and a few bytes at most. What
/// stands behind that byte isn't read.
fn receive_one<C: Connection>(connection: &mut C, into: &mut [u8]) -> (usize, Stop)
    requires { 0 < length into.old }
    ensures moved { C.moved connection.old connection.new (take result.0 into.new) [] }
    ensures within { result.0 ≤ length into.new }
    ensures strange { IsStrange (take result.0 into.new) }
    ensures some { result.1 ≡ Full → 0 < result.0 }
    ensures stops { result.1 ≢ Full → C.stops connection.new result.1 }
    ensures place { C.place_of connection.new ≡ C.place_of connection.old }
{
    let room = into.len().min(STRANGERS_ROOM);
    let mut count = 0;
    while count < room {
        match receive_byte(connection) {
            Ok(byte) => {
                into[count] = byte;
                count += 1;
                if may_end(byte) {
                    return (count, Stop::Full);
                }
            }
            Err(stop) => return (count, stop),
        }
    }
    (count, Stop::Full)
}

/// Reads a connection that is there, on which a session is up or isn't.
pub(crate) fn receive_on<C: Connection + Drop>(
    connection: &mut Option<C>,
    is_up: bool,
    into: &mut [u8],
) -> (usize, Stop)
    requires connected { IsSome connection.old }
    requires room { 0 < length into.old }
    ensures strange { ¬ IsTrue is_up → IsStrange (take result.0 into.new) }
    ensures moved { (before after : C) × (connection.old ≡ Some before) × (connection.new ≡ Some after) ×
        C.moved before after (take result.0 into.new) [] × (result.1 ≢ Full → C.stops after result.1) }
    ensures within { result.0 ≤ length into.new }
    ensures some { result.1 ≡ Full → 0 < result.0 }
    ensures place { option_map C.place_of connection.new ≡ option_map C.place_of connection.old }
{
    match connection {
        Some(connection) if is_up => receive_all(connection, into),
        Some(connection) => receive_one(connection, into),
        None => unreachable!(),
    }
}

/// Has a connection answer in the place of its peer, if there is one and it owes that.
pub(crate) fn acknowledge_on<C: Connection + Drop>(
    connection: &mut Option<C>,
    into: &mut [u8],
) -> usize
    ensures moved { 0 < result → (before after : C) × (connection.old ≡ Some before) × (connection.new ≡ Some after) ×
        C.moved before after (take result into.new) [] }
    ensures none { result ≡ 0 → connection.new ≡ connection.old }
    ensures within { result ≤ length into.new }
    ensures strange { IsStrange (take result into.new) }
    ensures place { option_map C.place_of connection.new ≡ option_map C.place_of connection.old }
{
    match connection {
        Some(connection) => connection.acknowledge(into),
        None => 0,
    }
}

/// Sends bytes on a connection, if there is one.
pub(crate) fn send_on<C: Connection + Drop>(
    connection: &mut Option<C>,
    bytes: &[u8],
) -> Result<usize, ConnectionFault>
    ensures moved { IfOk result (λ count. Sends C.moved connection.old (take count bytes.now) connection.new) }
    ensures within { IfOk result (λ count. count ≤ length bytes.now) }
    ensures place { option_map C.place_of connection.new ≡ option_map C.place_of connection.old }
{
    match connection {
        Some(connection) => connection.send(bytes),
        None => Err(ConnectionFault),
    }
}

/// Has a connection that is there say what its line doesn't write, and send it on. Answers whether
/// that went well.
pub(crate) fn say_on<C: Connection + Drop>(connection: &mut Option<C>, saying: Saying) -> bool
    requires { IsSome connection.old }
    ensures said { IsTrue result → (before middle after : C) × (connection.old ≡ Some before)
        × (connection.new ≡ Some after) × ((middle ≡ before) ⊎ C.said before middle saying)
        × C.moved middle after [] [] }
    ensures place { option_map C.place_of connection.new ≡ option_map C.place_of connection.old }
{
    match connection {
        Some(connection) => say(connection, saying),
        None => unreachable!(),
    }
}

/// Has a connection say it, and send it on.
fn say<C: Connection>(connection: &mut C, saying: Saying) -> bool
    ensures said { IsTrue result → (middle : C) × ((middle ≡ connection.old) ⊎ C.said connection.old middle saying)
        × C.moved middle connection.new [] [] }
    ensures place { C.place_of connection.new ≡ C.place_of connection.old }
{
    connection.say(saying);
    match connection.send(&[]) {
        Ok(_) => true,
        Err(_) => false,
    }
}
