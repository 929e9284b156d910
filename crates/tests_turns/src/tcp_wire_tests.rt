//! What a wire of a line over TCP/IP answers, step by step.

use crate::play::{Step, play};
use njh_turns::{Reading, WireFault};
use njh_wire::{ConnectionEnd, Saying};
use std::test::Fail;

const PENDING: Step = Step::Read(Ok(Reading::Pending));

const CLOSED: Step = Step::Read(Ok(Reading::Closed));

const ABSENT: Step = Step::Read(Ok(Reading::Absent));

const FAULT: Step = Step::Read(Err(WireFault));

/// A read gives so many bytes.
const fn bytes(count: usize) -> Step {
    Step::Read(Ok(Reading::Bytes(count)))
}

/// Over TCP/IP bytes are read while others wait to go out. Meanwhile there is no quiet, and the
/// connection is given up once nothing went out for thirty seconds.
#[test]
fn reads_on_by_tcp(rt: HostRuntime) -> Result<(), Fail> {
    let steps = [
        Step::ByTcp,
        Step::Connect(0),
        Step::Up,
        Step::At(10),
        Step::Takes(0, 5),
        Step::Write(9, true),
        Step::Due(30_010),
        Step::At(20),
        Step::Flush,
        Step::Due(30_020),
        Step::Comes(0, 7),
        Step::Is(true, true),
        bytes(7),
        Step::Is(false, true),
        Step::At(20_000),
        Step::Prompt(Ok(Reading::Pending)),
        Step::Takes(0, 1),
        Step::Flush,
        Step::Due(50_000),
        Step::At(49_999),
        PENDING,
        Step::At(50_000),
        FAULT,
        Step::Ended(Some(ConnectionEnd::Stalled)),
        ABSENT,
    ];
    play(&rt, rt.alloc(), "reads on by tcp", &steps)
}

/// It isn't read where the longest frame has no room besides what waits.
#[test]
fn keeps_room_by_tcp(rt: HostRuntime) -> Result<(), Fail> {
    let steps = [
        Step::ByTcp,
        Step::Connect(0),
        Step::Up,
        Step::Takes(0, 0),
        Step::Write(57_341, true),
        Step::Comes(0, 7),
        Step::Is(false, true),
        PENDING,
        Step::Takes(0, 1),
        Step::Flush,
        Step::Is(true, true),
        bytes(7),
    ];
    play(&rt, rt.alloc(), "keeps room by tcp", &steps)
}

/// Once all went out the connection's own answer is read, after what the peer says. It isn't heard:
/// the next quiet is due as before. On a bisync line none is asked for.
#[test]
fn answers_by_tcp(rt: HostRuntime) -> Result<(), Fail> {
    let steps = [
        Step::Connect(0),
        Step::Up,
        Step::Owes(0),
        PENDING,
        Step::ByTcp,
        Step::Write(3, true),
        PENDING,
        Step::Is(false, true),
        Step::Flush,
        Step::Is(true, false),
        Step::At(50),
        Step::Comes(0, 7),
        bytes(7),
        Step::Due(150),
        Step::At(60),
        bytes(1),
        Step::Due(150),
        PENDING,
    ];
    play(&rt, rt.alloc(), "answers by tcp", &steps)
}

/// Over TCP/IP a connection that is ended from here lets out what waits, and then sends no more. It
/// is over once the peer sends no more; another one is read meanwhile.
#[test]
fn leaves_by_tcp(rt: HostRuntime) -> Result<(), Fail> {
    let steps = [
        Step::ByTcp,
        Step::Connect(0),
        Step::At(10),
        Step::Takes(0, 5),
        Step::Write(9, true),
        Step::Close,
        Step::Ended(Some(ConnectionEnd::Closed)),
        CLOSED,
        ABSENT,
        Step::Is(false, false),
        Step::Leaves(20),
        Step::Leave,
        Step::Took(0, 5, 1),
        Step::Told(0, None, false),
        Step::Connect(1),
        Step::Takes(0, 100),
        Step::At(20),
        Step::Leave,
        Step::Took(0, 9, 2),
        Step::Told(0, None, true),
        Step::Comes(1, 3),
        bytes(3),
        Step::Comes(0, 70),
        Step::Ends(0),
        Step::Leave,
        Step::Leaves(u64::MAX),
        PENDING,
        Step::Took(1, 0, 0),
    ];
    play(&rt, rt.alloc(), "leaves by tcp", &steps)
}

/// A second later it is over in any case. On a bisync line it is dropped with what waits.
#[test]
fn leaves_for_a_second(rt: HostRuntime) -> Result<(), Fail> {
    let steps = [
        Step::Connect(0),
        Step::Write(4, true),
        Step::Close,
        CLOSED,
        Step::Leaves(u64::MAX),
        Step::ByTcp,
        Step::At(10),
        Step::Connect(1),
        Step::Takes(1, 0),
        Step::Write(4, true),
        Step::Connect(0),
        Step::Ended(Some(ConnectionEnd::Replaced)),
        CLOSED,
        PENDING,
        Step::At(1009),
        Step::Leave,
        Step::Leaves(1010),
        Step::At(1010),
        Step::Leave,
        Step::Leaves(u64::MAX),
        Step::Took(1, 0, 2),
        Step::Told(1, None, false),
    ];
    play(&rt, rt.alloc(), "leaves for a second", &steps)
}

/// A minute after something was sent the peer is to be told that this end is there.
#[test]
fn says_that_it_is_there(rt: HostRuntime) -> Result<(), Fail> {
    let steps = [
        Step::Connect(0),
        Step::Alive(u64::MAX),
        Step::ByTcp,
        Step::At(5),
        Step::Connect(1),
        CLOSED,
        Step::Alive(60_005),
        Step::At(100),
        Step::Write(3, true),
        Step::Alive(60_005),
        Step::Flush,
        Step::Alive(60_100),
        Step::At(60_100),
        Step::Say(Saying::KeepAlive),
        Step::Alive(120_100),
        Step::Told(1, Some(Saying::KeepAlive), false),
        Step::Took(1, 3, 2),
        Step::Breaks(1),
        Step::Say(Saying::SignOff),
        FAULT,
        Step::Ended(Some(ConnectionEnd::Failed)),
        Step::Alive(u64::MAX),
    ];
    play(&rt, rt.alloc(), "says that it is there", &steps)
}
