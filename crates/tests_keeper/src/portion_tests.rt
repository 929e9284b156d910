//! Files of many records, which are kept before the file is whole.

use crate::playing::play;
use std::rt::HostRuntime;
use std::test::Fail;

/// A file of 5,000 lines comes whole, and then others.
const WHOLE: &str = "
a1: contact
a1: sign on as LYON block 1024
a1: file LYON.1 of ANNA to PAUL@METZ, lines from 5000
# ACME has LYON.1 TO METZ PAUL OUT 5003 RECORDS READY
a1: file LYON.2 of ANNA to PAUL@METZ, lines from 2
# ACME has LYON.1 TO METZ PAUL OUT 5003 RECORDS READY, LYON.2 TO METZ PAUL OUT 5 RECORDS READY
a1: command from LYON ANNA to BUREAU: CANCEL LYON.1
a1: file LYON.3 of ANNA to PAUL@METZ, lines from 1500
# ACME has LYON.2 TO METZ PAUL OUT 5 RECORDS READY, LYON.3 TO METZ PAUL OUT 1503 RECORDS READY
# kill
a1: contact
a1: sign on as LYON block 1024
# ACME has LYON.2 TO METZ PAUL OUT 5 RECORDS READY, LYON.3 TO METZ PAUL OUT 1503 RECORDS READY
a1: file LYON.4 of ANNA to PAUL@METZ, lines from 1500
# ACME has LYON.2 TO METZ PAUL OUT 5 RECORDS READY, LYON.3 TO METZ PAUL OUT 1503 RECORDS READY, \
    LYON.4 TO METZ PAUL OUT 1503 RECORDS READY
";

/// The line is lost in the midst of a file, and another of its number comes.
const LOST_LINE: &str = r#"
a1: contact
a1: sign on as LYON block 1024
# cut 40
a1: file LYON.1 of ANNA to PAUL@METZ, lines from 5000
# uncut
# ACME has
a1: lost
a1: contact
a1: sign on as LYON block 1024
a1: file LYON.2 of ANNA to PAUL@METZ, lines from 1400
# ACME has LYON.2 TO METZ PAUL OUT 1403 RECORDS READY
a1: lost
a1: contact
a1: sign on as LYON block 1024
a1: file LYON.3 of ANNA to PAUL@METZ, lines from 4000
# ACME has LYON.2 TO METZ PAUL OUT 1403 RECORDS READY, LYON.3 TO METZ PAUL OUT 4003 RECORDS READY
# kill
a1: contact
a1: sign on as LYON block 1024
# ACME has LYON.2 TO METZ PAUL OUT 1403 RECORDS READY, LYON.3 TO METZ PAUL OUT 4003 RECORDS READY
"#;

/// A file is given up where another one begins, which is whole in the same block.
const GIVEN_UP: &str = "
a1: contact
a1: sign on as LYON block 1024
# cut 40
a1: file LYON.1 of ANNA to PAUL@METZ, lines from 5000
# uncut
a1: bytes 1002888fcf90990099c0c20064a300c160a300c102b200ccd7c1e8d9d6d3d340c1d5d5c184b800c4d3e8d6d5\
    84c4c1d5d5c184c4d4c5e3e98c0099e0c20018a300c7140000d4c5e3e984c4d7c1e4d384009980c3d6d5c50099d0c4\
    0004000000998000001026
# ACME has LYON.2 TO METZ PAUL OUT 4 RECORDS READY
a1: lost
a1: contact
a1: sign on as LYON block 1024
a1: file LYON.3 of ANNA to PAUL@METZ, lines from 2000
# ACME has LYON.2 TO METZ PAUL OUT 4 RECORDS READY, LYON.3 TO METZ PAUL OUT 2003 RECORDS READY
# kill
a1: contact
a1: sign on as LYON block 1024
# ACME has LYON.2 TO METZ PAUL OUT 4 RECORDS READY, LYON.3 TO METZ PAUL OUT 2003 RECORDS READY
";

/// The program is killed in the midst of a file.
const KILLED: &str = r#"
a1: contact
a1: sign on as LYON block 1024
# cut 40
a1: file LYON.1 of ANNA to PAUL@METZ, lines from 5000
# uncut
# kill
# ACME has
a1: contact
a1: sign on as LYON block 1024
a1: file LYON.2 of ANNA to PAUL@METZ, lines from 3000
# ACME has LYON.2 TO METZ PAUL OUT 3003 RECORDS READY
# kill
a1: contact
a1: sign on as LYON block 1024
# ACME has LYON.2 TO METZ PAUL OUT 3003 RECORDS READY
"#;

/// The last records of a file, which many came before, its end, and a command that sends it
/// elsewhere are in one block.
const REROUTED: &str = "
a1: contact
a1: sign on as LYON block 1024
# cut 40
a1: file LYON.1 of ANNA to PAUL@METZ, lines from 5000
# uncut
# ACME has
a1: bytes 1002888fcf9980c3d6d5c50099d0c400040000009980009a80caa0770013c2e4d9c5c1e482c500c1d5d5c184\
    c4d3e8d6d584d400d9c5d9d6e4e3c540d3e8d6d54bf140d5c9c3c500001026
# ACME has LYON.1 TO NICE PAUL OUT 3130 RECORDS READY
# kill
a1: contact
a1: sign on as LYON block 1024
# ACME has LYON.1 TO NICE PAUL OUT 3130 RECORDS READY
";

/// A long file is kept whole.
#[test]
fn long_files_are_kept(rt: HostRuntime) -> Result<(), Fail> {
    play(&rt, "long_files_are_kept", WHOLE)
}

/// What is left of a file is no part of another.
#[test]
fn nothing_is_left_of_a_lost_file(rt: HostRuntime) -> Result<(), Fail> {
    play(&rt, "nothing_is_left_of_a_lost_file", LOST_LINE)
}

/// The same where both are in one step.
#[test]
fn nothing_is_left_in_one_step(rt: HostRuntime) -> Result<(), Fail> {
    play(&rt, "nothing_is_left_in_one_step", GIVEN_UP)
}

/// The same where the program is killed.
#[test]
fn nothing_is_left_of_a_killed_program(rt: HostRuntime) -> Result<(), Fail> {
    play(&rt, "nothing_is_left_of_a_killed_program", KILLED)
}

/// The headers of a file that is sent elsewhere as it becomes whole are kept as they are then.
#[test]
fn new_headers_are_kept(rt: HostRuntime) -> Result<(), Fail> {
    play(&rt, "new_headers_are_kept", REROUTED)
}
