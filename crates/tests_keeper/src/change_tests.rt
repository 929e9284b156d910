//! Files that change while they are there.

use crate::playing::play;
use std::rt::HostRuntime;
use std::test::Fail;

/// Files are held and released.
const HELD: &str = r#"
a1: contact
a1: sign on as LYON block 1024
a1: file LYON.1 of ANNA to PAUL@METZ, lines from 2
a1: file LYON.2 of ANNA to PAUL@METZ, lines from 2
a1: command from LYON ANNA to BUREAU: HOLD LYON.1
# ACME has LYON.1 TO METZ PAUL OUT 5 RECORDS HELD, LYON.2 TO METZ PAUL OUT 5 RECORDS READY
# kill
a1: contact
a1: sign on as LYON block 1024
# ACME has LYON.1 TO METZ PAUL OUT 5 RECORDS HELD, LYON.2 TO METZ PAUL OUT 5 RECORDS READY
a1: command from LYON ANNA to BUREAU: HOLD LYON.2
a1: command from LYON ANNA to BUREAU: RELEASE LYON.1
# ACME has LYON.1 TO METZ PAUL OUT 5 RECORDS READY, LYON.2 TO METZ PAUL OUT 5 RECORDS HELD
# kill
a1: contact
a1: sign on as LYON block 1024
# ACME has LYON.1 TO METZ PAUL OUT 5 RECORDS READY, LYON.2 TO METZ PAUL OUT 5 RECORDS HELD
a1: command from LYON ANNA to BUREAU: RELEASE LYON.2
# ACME has LYON.1 TO METZ PAUL OUT 5 RECORDS READY, LYON.2 TO METZ PAUL OUT 5 RECORDS READY
"#;

/// Files are cancelled.
const CANCELLED: &str = r#"
a1: contact
a1: sign on as LYON block 1024
b1: contact
b1: sign on as LYON block 1024
a1: file LYON.1 of ANNA to PAUL@METZ, lines from 2
a1: file LYON.2 of ANNA to PAUL@METZ, lines from 2
a1: file LYON.3 of ANNA to PAUL@METZ, lines from 2
b1: file LYON.2 of ANNA to PAUL@METZ, lines from 2
a1: command from LYON ANNA to BUREAU: CANCEL LYON.2
# ACME has LYON.1 TO METZ PAUL OUT 5 RECORDS READY, LYON.3 TO METZ PAUL OUT 5 RECORDS READY
# BOLT has LYON.2 TO METZ PAUL OUT 5 RECORDS READY
a1: command from LYON ANNA to BUREAU: CANCEL LYON.1
# ACME has LYON.3 TO METZ PAUL OUT 5 RECORDS READY
# kill
a1: contact
a1: sign on as LYON block 1024
a1: command from LYON ANNA to BUREAU: CANCEL LYON.3
# ACME has
# BOLT has LYON.2 TO METZ PAUL OUT 5 RECORDS READY
"#;

/// Output and a job go to another node, and back.
const REROUTED: &str = "
a1: contact
a1: sign on as LYON block 1024
a1: file LYON.1 of ANNA to PAUL@METZ, lines from 2
a1: file LYON.2 of ANNA to PAUL@METZ, lines from 2
a1: bytes 1002848fcf909800001026
a1: bytes 1002858fcf98c0c20064a300c160a300c103b200ccd7c1e8d9d6d3d340c1d5d5c184b800c4d3e8d6d584c4c1\
    d5d5c184c4d4c5e3e98c009880c96161c7d640c5e7c5c30098d0c40004000000988000001026
a1: bytes 1002868fcf9a80caa077000bc2e4d9c5c1e482c500c1d5d5c184c4d3e8d6d584cc00c8d6d3c440d3e8d6d54bf300001026
a1: bytes 1002878fcf9a80caa0770013c2e4d9c5c1e482c500c1d5d5c184c4d3e8d6d584d400d9c5d9d6e4e3c540d3e8\
    d6d54bf140d5c9c3c500001026
a1: bytes 1002888fcf9a80caa0770013c2e4d9c5c1e482c500c1d5d5c184c4d3e8d6d584d400d9c5d9d6e4e3c540d3e8\
    d6d54bf340d5c9c3c500001026
# ACME has LYON.1 TO NICE PAUL OUT 5 RECORDS READY, LYON.2 TO METZ PAUL OUT 5 RECORDS READY, \
    LYON.3 TO NICE IN 3 RECORDS HELD
# kill
a1: contact
a1: sign on as LYON block 1024
# ACME has LYON.1 TO NICE PAUL OUT 5 RECORDS READY, LYON.2 TO METZ PAUL OUT 5 RECORDS READY, \
    LYON.3 TO NICE IN 3 RECORDS HELD
a1: command from LYON ANNA to BUREAU: REROUTE LYON.1 METZ
a1: command from LYON ANNA to BUREAU: REROUTE LYON.3 METZ
a1: command from LYON ANNA to BUREAU: RELEASE LYON.3
# ACME has LYON.1 TO METZ PAUL OUT 5 RECORDS READY, LYON.2 TO METZ PAUL OUT 5 RECORDS READY, \
    LYON.3 TO METZ IN 3 RECORDS READY
";

/// NICE has no route when the program begins again, and has one later.
const UNROUTED: &str = r#"
a1: contact
a1: sign on as LYON block 1024
a1: file LYON.1 of ANNA to PAUL@NICE, lines from 2
a1: file LYON.2 of ANNA to PAUL@METZ, lines from 2
# ACME has LYON.1 TO NICE PAUL OUT 5 RECORDS READY, LYON.2 TO METZ PAUL OUT 5 RECORDS READY
# kill
# NICE has no route
# ACME has LYON.1 TO NICE PAUL OUT 5 RECORDS HELD, LYON.2 TO METZ PAUL OUT 5 RECORDS READY
# kill
# ACME has LYON.1 TO NICE PAUL OUT 5 RECORDS HELD, LYON.2 TO METZ PAUL OUT 5 RECORDS READY
a1: contact
a1: sign on as LYON block 1024
a1: command from LYON ANNA to BUREAU: RELEASE LYON.1
# ACME has LYON.1 TO NICE PAUL OUT 5 RECORDS READY, LYON.2 TO METZ PAUL OUT 5 RECORDS READY
"#;

/// Held is Held again, and Ready is Ready.
#[test]
fn held_is_kept(rt: HostRuntime) -> Result<(), Fail> {
    play(&rt, "held_is_kept", HELD)
}

/// A cancelled file is gone, and the others stay.
#[test]
fn cancelled_files_leave(rt: HostRuntime) -> Result<(), Fail> {
    play(&rt, "cancelled_files_leave", CANCELLED)
}

/// The node that a file goes to is kept.
#[test]
fn nodes_are_kept(rt: HostRuntime) -> Result<(), Fail> {
    play(&rt, "nodes_are_kept", REROUTED)
}

/// What is Held at the opening, since its node has no route, is Held from then on.
#[test]
fn held_at_the_opening_is_kept(rt: HostRuntime) -> Result<(), Fail> {
    play(&rt, "held_at_the_opening_is_kept", UNROUTED)
}
