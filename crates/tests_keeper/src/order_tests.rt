//! What the bureau's operator orders is kept.

use crate::playing::play;
use std::rt::HostRuntime;
use std::test::Fail;

/// Files are held and released by orders, with no line up.
const HELD: &str = "
a1: contact
a1: sign on as LYON block 1024
a1: file LYON.1 of ANNA to PAUL@METZ, lines from 2
a1: file LYON.2 of ANNA to PAUL@METZ, lines from 2
# order ACME LYON.ANNA HOLD LYON.1
# ACME has LYON.1 TO METZ PAUL OUT 5 RECORDS HELD, LYON.2 TO METZ PAUL OUT 5 RECORDS READY
# kill
# ACME has LYON.1 TO METZ PAUL OUT 5 RECORDS HELD, LYON.2 TO METZ PAUL OUT 5 RECORDS READY
# order ACME LYON.ANNA HOLD LYON.2
# order ACME LYON.ANNA RELEASE LYON.1
# kill
# ACME has LYON.1 TO METZ PAUL OUT 5 RECORDS READY, LYON.2 TO METZ PAUL OUT 5 RECORDS HELD
# order ACME LYON.ANNA RELEASE LYON.2
# kill
# ACME has LYON.1 TO METZ PAUL OUT 5 RECORDS READY, LYON.2 TO METZ PAUL OUT 5 RECORDS READY
";

/// A file is cancelled that waits, and one that goes out. An order in another user's name, and one
/// for a customer that has the same names, leave a file. Another one comes after them.
const CANCELLED: &str = "
a1: contact
a1: sign on as LYON block 1024
b1: contact
b1: sign on as LYON block 1024
a1: file LYON.1 of ANNA to PAUL@METZ, lines from 2
a1: file LYON.2 of ANNA to PAUL@METZ, lines from 300
a1: file LYON.3 of ANNA to PAUL@METZ, lines from 2
b1: file LYON.3 of ANNA to PAUL@METZ, lines from 2
# order ACME LYON.PAUL CANCEL LYON.1
# order BOLT LYON.ANNA CANCEL LYON.1
# ACME has LYON.1 TO METZ PAUL OUT 5 RECORDS READY, LYON.2 TO METZ PAUL OUT 303 RECORDS READY, \
    LYON.3 TO METZ PAUL OUT 5 RECORDS READY
# order ACME LYON.ANNA HOLD LYON.1
a2: contact
a2: sign on as METZ block 1024
a2: bytes 1002828fcf90a09900001026
# order ACME LYON.ANNA CANCEL LYON.2
# ACME has LYON.1 TO METZ PAUL OUT 5 RECORDS HELD, LYON.3 TO METZ PAUL OUT 5 RECORDS READY
# order BOLT LYON.ANNA CANCEL LYON.3
# BOLT has
# ACME has LYON.1 TO METZ PAUL OUT 5 RECORDS HELD, LYON.3 TO METZ PAUL OUT 5 RECORDS READY
a1: file LYON.4 of ANNA to PAUL@METZ, lines from 2
# kill
# ACME has LYON.1 TO METZ PAUL OUT 5 RECORDS HELD, LYON.3 TO METZ PAUL OUT 5 RECORDS READY, \
    LYON.4 TO METZ PAUL OUT 5 RECORDS READY
# BOLT has
# order ACME LYON.ANNA CANCEL LYON.1
# order ACME LYON.ANNA CANCEL LYON.4
# order ACME LYON.ANNA CANCEL LYON.3
# kill
# ACME has
";

/// A file is sent elsewhere and back, while another one comes and isn't whole.
const REROUTED: &str = "
a1: contact
a1: sign on as LYON block 1024
a1: file LYON.1 of ANNA to PAUL@METZ, lines from 2
# cut 40
a1: file LYON.2 of ANNA to PAUL@METZ, lines from 5000
# uncut
# order ACME LYON.ANNA REROUTE LYON.1 NICE
# ACME has LYON.1 TO NICE PAUL OUT 5 RECORDS READY
# kill
# ACME has LYON.1 TO NICE PAUL OUT 5 RECORDS READY
a1: contact
a1: sign on as LYON block 1024
a1: file LYON.2 of ANNA to PAUL@NICE, lines from 1500
# order ACME LYON.ANNA REROUTE LYON.1 METZ
# order ACME LYON.ANNA REROUTE LYON.2 METZ
# order ACME LYON.ANNA REROUTE LYON.1 NICE
# kill
# ACME has LYON.1 TO NICE PAUL OUT 5 RECORDS READY, LYON.2 TO METZ PAUL OUT 1503 RECORDS READY
";

/// A message changes nothing that is kept, and no more does a command that is none.
const TOLD: &str = "
a1: contact
a1: sign on as LYON block 1024
a1: file LYON.1 of ANNA to PAUL@METZ, lines from 2
# tell ACME LYON.ANNA YOUR FILE WAITS
# tell ACME METZ.PAUL A FILE WAITS FOR YOU
# order ACME LYON.ANNA CANCEL LYON
# ACME has LYON.1 TO METZ PAUL OUT 5 RECORDS READY
# kill
# ACME has LYON.1 TO METZ PAUL OUT 5 RECORDS READY
";

/// What is ordered to be Held or released is so from then on.
#[test]
fn orders_to_hold_are_kept(rt: HostRuntime) -> Result<(), Fail> {
    play(&rt, "orders_to_hold_are_kept", HELD)
}

/// A file that an order cancelled is gone, and the others stay.
#[test]
fn orders_to_cancel_are_kept(rt: HostRuntime) -> Result<(), Fail> {
    play(&rt, "orders_to_cancel_are_kept", CANCELLED)
}

/// The node that a file was ordered to is kept.
#[test]
fn orders_to_reroute_are_kept(rt: HostRuntime) -> Result<(), Fail> {
    play(&rt, "orders_to_reroute_are_kept", REROUTED)
}

/// Orders that move no file leave what is kept.
#[test]
fn orders_that_move_no_file(rt: HostRuntime) -> Result<(), Fail> {
    play(&rt, "orders_that_move_no_file", TOLD)
}
