//! Control records on connections, which come before a line has its connection (NJE over TCP/IP).

ghost use Rattle.std.specs.Prelude.{◌≡◌, ◌≤◌, ℕ, [], length, take, IsTrue};
ghost use Rattle.njh_tcp.specs.Controls.{control_bytes};

use arrayvec::ArrayVec;
use njh_tcp::{CONTROL_RECORD, ControlRecord};
use njh_wire::{Connection, Stop, receive_byte};

/// Reads at most so many bytes of a connection, and none behind them. Answers them, and whether no
/// more come.
pub(crate) fn receive_up_to<C: Connection>(
    connection: &mut C,
    most: usize,
) -> (ArrayVec<u8, CONTROL_RECORD>, bool)
    requires { most ≤ 33 }
    ensures moved { C.moved connection.old connection.new result.0.items [] }
    ensures few { length result.0.items ≤ most }
    ensures place { C.place_of connection.new ≡ C.place_of connection.old }
{
    let mut bytes = ArrayVec::new();
    while bytes.len() < most {
        match receive_byte(connection) {
            Ok(byte) => bytes.push(byte),
            Err(stop) => return (bytes, is_end(stop)),
        }
    }
    (bytes, false)
}

/// Whether no more bytes come, by why none came now.
fn is_end(stop: Stop) -> bool {
    match stop {
        Stop::Ended | Stop::Failed | Stop::Refused(_) => true,
        Stop::Full | Stop::Dry | Stop::Paused => false,
    }
}

/// Sends a control record, and answers whether all of it went out.
pub(crate) fn send_record<C: Connection>(connection: &mut C, control: &ControlRecord) -> bool
    ensures sent { IsTrue result → C.moved connection.old connection.new [] (control_bytes control.now) }
    ensures went { (count : ℕ) × C.moved connection.old connection.new [] (take count (control_bytes control.now)) }
    ensures place { C.place_of connection.new ≡ C.place_of connection.old }
{
    let bytes = control.write();
    match connection.send(bytes.as_slice()) {
        Ok(count) => count == bytes.len(),
        Err(_) => false,
    }
}
