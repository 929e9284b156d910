//! What a wire of a line answers, step by step.

use crate::play::{Step, play};
use njh_turns::{Reading, WireFault};
use njh_wire::ConnectionEnd;
use std::test::Fail;

const QUIET: Step = Step::Read(Ok(Reading::Quiet));

const PENDING: Step = Step::Read(Ok(Reading::Pending));

const CLOSED: Step = Step::Read(Ok(Reading::Closed));

const ABSENT: Step = Step::Read(Ok(Reading::Absent));

const FAULT: Step = Step::Read(Err(WireFault));

/// A read that is prompted answers so.
const PROMPTED: Step = Step::Prompt(Ok(Reading::Prompted));

/// A read gives so many bytes.
const fn bytes(count: usize) -> Step {
    Step::Read(Ok(Reading::Bytes(count)))
}

#[test]
fn silence(rt: HostRuntime) -> Result<(), Fail> {
    let steps = [
        ABSENT,
        Step::Due(u64::MAX),
        Step::At(5000),
        Step::Connect(0),
        PENDING,
        Step::Is(false, false),
        Step::Due(5100),
        Step::At(5099),
        PENDING,
        PENDING,
        Step::At(5100),
        QUIET,
        PENDING,
        Step::Due(5200),
        Step::At(5150),
        Step::Comes(0, 7),
        Step::Is(true, false),
        bytes(7),
        Step::Due(5250),
        Step::At(5249),
        PENDING,
        Step::At(5250),
        QUIET,
    ];
    play(&rt, rt.alloc(), "silence", &steps)
}

/// Bytes go first, then an end; where bytes wait to go out nothing is asked for. The next quiet is
/// measured from a prompt on.
#[test]
fn prompts(rt: HostRuntime) -> Result<(), Fail> {
    let steps = [
        Step::Prompt(Ok(Reading::Absent)),
        Step::Connect(0),
        Step::At(40),
        PROMPTED,
        Step::Due(140),
        PENDING,
        Step::At(140),
        PROMPTED,
        Step::Due(240),
        PENDING,
        Step::At(150),
        Step::Comes(0, 7),
        Step::Prompt(Ok(Reading::Bytes(7))),
        Step::Due(250),
        Step::Takes(0, 0),
        Step::Write(3, true),
        Step::Flush,
        Step::At(1000),
        Step::Prompt(Ok(Reading::Pending)),
        Step::At(1150),
        Step::Prompt(Err(WireFault)),
        Step::Prompt(Ok(Reading::Absent)),
        Step::Connect(1),
        Step::Close,
        Step::Prompt(Ok(Reading::Closed)),
        Step::Prompt(Ok(Reading::Absent)),
    ];
    play(&rt, rt.alloc(), "prompts", &steps)
}

/// Of a peer without a session a read gives bytes up to the first that may end a frame: ETX, ETB,
/// ENQ, EOT, NAK, and the second byte of an ACK0. Once a session is up it gives all that came, and on
/// the next connection it doesn't again.
#[test]
fn strangers_are_read_a_frame_at_a_time(rt: HostRuntime) -> Result<(), Fail> {
    let steps = [
        Step::Connect(0),
        Step::Gives(0, 0),
        Step::Comes(0, 90),
        bytes(4),
        Step::Is(true, false),
        bytes(35),
        bytes(7),
        bytes(10),
        bytes(6),
        bytes(28),
        PENDING,
        Step::Gives(0, 0x6F),
        Step::Comes(0, 3),
        Step::Prompt(Ok(Reading::Bytes(2))),
        bytes(1),
        Step::Up,
        Step::Gives(0, 0),
        Step::Comes(0, 90),
        bytes(90),
        Step::Connect(1),
        CLOSED,
        Step::Gives(1, 0),
        Step::Comes(1, 90),
        bytes(4),
    ];
    play(&rt, rt.alloc(), "strangers", &steps)
}

#[test]
fn ten_quiets_take_a_second(rt: HostRuntime) -> Result<(), Fail> {
    let steps = [
        Step::Connect(0),
        PENDING,
        Step::At(100),
        QUIET,
        Step::At(200),
        QUIET,
        Step::At(300),
        QUIET,
        Step::At(400),
        QUIET,
        Step::At(500),
        QUIET,
        Step::At(600),
        QUIET,
        Step::At(700),
        QUIET,
        Step::At(800),
        QUIET,
        Step::At(900),
        QUIET,
        Step::At(999),
        PENDING,
        Step::At(1000),
        QUIET,
    ];
    play(&rt, rt.alloc(), "ten quiets", &steps)
}

#[test]
fn slow_reader(rt: HostRuntime) -> Result<(), Fail> {
    let steps = [
        Step::Connect(0),
        Step::Comes(0, 2),
        bytes(2),
        Step::Takes(0, 10),
        Step::Write(30, true),
        Step::Took(0, 0, 0),
        Step::Flush,
        Step::Took(0, 10, 1),
        Step::Is(false, true),
        Step::Due(1000),
        Step::Comes(0, 5),
        Step::At(400),
        PENDING,
        Step::Takes(0, 15),
        Step::Flush,
        Step::Took(0, 25, 2),
        Step::At(999),
        PENDING,
        Step::Takes(0, 100),
        Step::Flush,
        Step::Took(0, 30, 3),
        bytes(5),
    ];
    play(&rt, rt.alloc(), "slow reader", &steps)
}

#[test]
fn reader_that_stalls(rt: HostRuntime) -> Result<(), Fail> {
    let steps = [
        Step::Connect(0),
        Step::At(50),
        Step::Takes(0, 0),
        Step::Write(3, true),
        Step::Flush,
        Step::At(1049),
        PENDING,
        Step::At(1050),
        FAULT,
        Step::Ended(Some(ConnectionEnd::Stalled)),
        Step::Ended(None),
        ABSENT,
    ];
    play(&rt, rt.alloc(), "stalled", &steps)
}

#[test]
fn answers_wait_until_they_are_let_out(rt: HostRuntime) -> Result<(), Fail> {
    let steps = [
        Step::Connect(0),
        Step::Comes(0, 8),
        bytes(8),
        Step::Write(2, true),
        Step::Write(2, true),
        Step::Write(2, true),
        Step::Is(false, true),
        Step::Took(0, 0, 0),
        Step::Flush,
        Step::Took(0, 6, 1),
        Step::Comes(0, 2),
        bytes(2),
        Step::Write(2, true),
        Step::Took(0, 6, 1),
        Step::Flush,
        Step::Took(0, 8, 2),
        Step::Is(false, false),
    ];
    play(&rt, rt.alloc(), "flood", &steps)
}

#[test]
fn no_room(rt: HostRuntime) -> Result<(), Fail> {
    let steps = [
        Step::Connect(0),
        Step::Write(65_535, true),
        Step::Write(1, true),
        Step::Write(1, false),
        Step::Ended(Some(ConnectionEnd::Failed)),
        ABSENT,
        Step::Write(1, false),
    ];
    play(&rt, rt.alloc(), "no room", &steps)
}

#[test]
fn ends(rt: HostRuntime) -> Result<(), Fail> {
    let steps = [
        Step::Connect(0),
        Step::Close,
        Step::Is(true, false),
        CLOSED,
        Step::Ended(Some(ConnectionEnd::Closed)),
        ABSENT,
        Step::Close,
        ABSENT,
        Step::Connect(0),
        Step::Comes(0, 3),
        Step::Ends(0),
        bytes(3),
        Step::Write(2, true),
        Step::Is(false, true),
        Step::Flush,
        Step::Took(0, 2, 1),
        Step::Is(true, false),
        CLOSED,
        Step::Ended(Some(ConnectionEnd::Ended)),
        ABSENT,
    ];
    play(&rt, rt.alloc(), "ends", &steps)
}

#[test]
fn another_takes_its_place(rt: HostRuntime) -> Result<(), Fail> {
    let steps = [
        Step::Connect(0),
        Step::Write(4, true),
        Step::Connect(1),
        Step::Comes(1, 6),
        Step::Write(2, false),
        bytes(6),
        Step::Ended(Some(ConnectionEnd::Failed)),
        Step::Connect(0),
        Step::Ended(Some(ConnectionEnd::Replaced)),
        CLOSED,
        PENDING,
        Step::Took(0, 0, 0),
        Step::Took(1, 0, 0),
    ];
    play(&rt, rt.alloc(), "replaced", &steps)
}

#[test]
fn faults(rt: HostRuntime) -> Result<(), Fail> {
    let steps = [
        Step::Connect(0),
        Step::Comes(0, 3),
        Step::Breaks(0),
        bytes(3),
        FAULT,
        Step::Ended(Some(ConnectionEnd::Failed)),
        ABSENT,
        Step::Connect(1),
        Step::Takes(1, 0),
        Step::Write(2, true),
        Step::Breaks(1),
        Step::Flush,
        FAULT,
        ABSENT,
    ];
    play(&rt, rt.alloc(), "faults", &steps)
}
