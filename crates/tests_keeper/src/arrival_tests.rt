//! Files that come and leave, and in which order they are found again.

use crate::playing::play;
use std::rt::HostRuntime;
use std::test::Fail;

/// Output and jobs of the same names come for two customers.
const SAME_NAMES: &str = "
a1: contact
a1: sign on as LYON block 1024
b1: contact
b1: sign on as LYON block 1024
a1: file LYON.42 of ANNA to PAUL@METZ, lines from 2
# BOLT has
b1: file LYON.42 of ANNA to PAUL@METZ, lines from 3
# A job on each.
b1: bytes 1002828fcf909800001026
b1: bytes 1002838fcf98c0c20064a300c160a300c12bb200ccd7c1e8d9d6d3d340c1d5d5c184b800c4d3e8d6d584c4c1\
    d5d5c184c4d4c5e3e98c009880c96161c7d640c5e7c5c30098d0c40004000000988000001026
a1: bytes 1002828fcf909800001026
a1: bytes 1002838fcf98c0c20064a300c160a300c12bb200c5c9d5c4c5e783c4c1d5d5c184b800c4d3e8d6d584c4c1d5\
    d5c184c4d4c5e3e98c009880c96161c7d640c5e7c5c30098d0c40004000000988000001026
# ACME has LYON.42 TO METZ PAUL OUT 5 RECORDS READY, LYON.43 TO METZ IN 3 RECORDS READY
# BOLT has LYON.42 TO METZ PAUL OUT 6 RECORDS READY, LYON.43 TO METZ IN 3 RECORDS READY
";

/// Of three files the second one leaves, and others come before and after a new beginning.
const ORDER: &str = "
a1: contact
a1: sign on as LYON block 1024
a1: file LYON.1 of ANNA to PAUL@METZ, lines from 2
a1: file LYON.2 of ANNA to PAUL@METZ, lines from 3
a1: file LYON.3 of ANNA to PAUL@METZ, lines from 4
a1: command from LYON ANNA to BUREAU: CANCEL LYON.2
# ACME has LYON.1 TO METZ PAUL OUT 5 RECORDS READY, LYON.3 TO METZ PAUL OUT 7 RECORDS READY
a1: file LYON.4 of ANNA to PAUL@METZ, lines from 5
# ACME has LYON.1 TO METZ PAUL OUT 5 RECORDS READY, LYON.3 TO METZ PAUL OUT 7 RECORDS READY, \
    LYON.4 TO METZ PAUL OUT 8 RECORDS READY
# kill
a1: contact
a1: sign on as LYON block 1024
# ACME has LYON.1 TO METZ PAUL OUT 5 RECORDS READY, LYON.3 TO METZ PAUL OUT 7 RECORDS READY, \
    LYON.4 TO METZ PAUL OUT 8 RECORDS READY
a1: file LYON.5 of ANNA to PAUL@METZ, lines from 6
# ACME has LYON.1 TO METZ PAUL OUT 5 RECORDS READY, LYON.3 TO METZ PAUL OUT 7 RECORDS READY, \
    LYON.4 TO METZ PAUL OUT 8 RECORDS READY, LYON.5 TO METZ PAUL OUT 9 RECORDS READY
a1: command from LYON ANNA to BUREAU: CANCEL LYON.1
a1: file LYON.6 of ANNA to PAUL@METZ, lines from 7
# ACME has LYON.3 TO METZ PAUL OUT 7 RECORDS READY, LYON.4 TO METZ PAUL OUT 8 RECORDS READY, \
    LYON.5 TO METZ PAUL OUT 9 RECORDS READY, LYON.6 TO METZ PAUL OUT 10 RECORDS READY
# kill
a1: contact
a1: sign on as LYON block 1024
a1: file LYON.7 of ANNA to PAUL@METZ, lines from 1
# ACME has LYON.3 TO METZ PAUL OUT 7 RECORDS READY, LYON.4 TO METZ PAUL OUT 8 RECORDS READY, \
    LYON.5 TO METZ PAUL OUT 9 RECORDS READY, LYON.6 TO METZ PAUL OUT 10 RECORDS READY, \
    LYON.7 TO METZ PAUL OUT 4 RECORDS READY
";

/// Files leave and come in the same step: the first two are cancelled, and another one comes.
const AT_ONCE: &str = "
a1: contact
a1: sign on as LYON block 1024
a1: file LYON.1 of ANNA to PAUL@METZ, lines from 2
a1: file LYON.2 of ANNA to PAUL@METZ, lines from 2
a1: file LYON.3 of ANNA to PAUL@METZ, lines from 2
a1: bytes 1002868fcf9a80caa077000dc2e4d9c5c1e482c500c1d5d5c184c4d3e8d6d584ce00c3c1d5c3c5d340d3e8d6\
    d54bf1009a80caa077000dc2e4d9c5c1e482c500c1d5d5c184c4d3e8d6d584ce00c3c1d5c3c5d340d3e8d6d54bf200\
    90990099c0c20064a300c160a300c104b200ccd7c1e8d9d6d3d340c1d5d5c184b800c4d3e8d6d584c4c1d5d5c184c4\
    d4c5e3e98c0099e0c20018a300c7140000d4c5e3e984c4d7c1e4d384009980c3d6d5c50099d0c40004000000998000\
    001026
# ACME has LYON.3 TO METZ PAUL OUT 5 RECORDS READY, LYON.4 TO METZ PAUL OUT 4 RECORDS READY
# A file comes and is cancelled at once.
a1: bytes 1002878fcf90990099c0c20064a300c160a300c105b200ccd7c1e8d9d6d3d340c1d5d5c184b800c4d3e8d6d5\
    84c4c1d5d5c184c4d4c5e3e98c0099e0c20018a300c7140000d4c5e3e984c4d7c1e4d384009980c3d6d5c50099d0c4\
    00040000009980009a80caa077000dc2e4d9c5c1e482c500c1d5d5c184c4d3e8d6d584ce00c3c1d5c3c5d340d3e8d6\
    d54bf500001026
# ACME has LYON.3 TO METZ PAUL OUT 5 RECORDS READY, LYON.4 TO METZ PAUL OUT 4 RECORDS READY
# One comes, and one of those before it is cancelled behind it.
a1: bytes 1002888fcf90990099c0c20064a300c160a300c106b200ccd7c1e8d9d6d3d340c1d5d5c184b800c4d3e8d6d5\
    84c4c1d5d5c184c4d4c5e3e98c0099e0c20018a300c7140000d4c5e3e984c4d7c1e4d384009980c3d6d5c50099d0c4\
    00040000009980009a80caa077000dc2e4d9c5c1e482c500c1d5d5c184c4d3e8d6d584ce00c3c1d5c3c5d340d3e8d6\
    d54bf300001026
# ACME has LYON.4 TO METZ PAUL OUT 4 RECORDS READY, LYON.6 TO METZ PAUL OUT 4 RECORDS READY
# kill
a1: contact
a1: sign on as LYON block 1024
# ACME has LYON.4 TO METZ PAUL OUT 4 RECORDS READY, LYON.6 TO METZ PAUL OUT 4 RECORDS READY
";

/// METZ is sent two files and takes one before the line is lost.
const TAKEN: &str = "
a1: contact
a1: sign on as LYON block 1024
a1: file LYON.1 of ANNA to PAUL@METZ, lines from 2
a1: file LYON.2 of ANNA to PAUL@METZ, lines from 3
a1: file LYON.3 of ANNA to PAUL@METZ, lines from 4
a2: contact
a2: sign on as METZ block 1024
a2: ack
a2: permit SYSOUT 1
# ACME has LYON.1 TO METZ PAUL OUT 5 RECORDS READY, LYON.2 TO METZ PAUL OUT 6 RECORDS READY, \
    LYON.3 TO METZ PAUL OUT 7 RECORDS READY
a2: complete SYSOUT 1
# ACME has LYON.2 TO METZ PAUL OUT 6 RECORDS READY, LYON.3 TO METZ PAUL OUT 7 RECORDS READY
a2: permit SYSOUT 1
a2: lost
# ACME has LYON.2 TO METZ PAUL OUT 6 RECORDS READY, LYON.3 TO METZ PAUL OUT 7 RECORDS READY
# kill
a1: contact
a1: sign on as LYON block 1024
a2: contact
a2: sign on as METZ block 1024
a2: ack
a2: permit SYSOUT 1
a2: complete SYSOUT 1
# ACME has LYON.3 TO METZ PAUL OUT 7 RECORDS READY
a2: permit SYSOUT 2
a2: complete SYSOUT 2
# ACME has
";

/// Each customer's files are kept under its own name.
#[test]
fn names_are_apart(rt: HostRuntime) -> Result<(), Fail> {
    play(&rt, "names_are_apart", SAME_NAMES)
}

/// The order of arrival is kept.
#[test]
fn order_is_kept(rt: HostRuntime) -> Result<(), Fail> {
    play(&rt, "order_is_kept", ORDER)
}

/// What comes and leaves in one step is kept.
#[test]
fn one_step_is_kept(rt: HostRuntime) -> Result<(), Fail> {
    play(&rt, "one_step_is_kept", AT_ONCE)
}

/// A file leaves once its peer has it.
#[test]
fn taken_files_leave(rt: HostRuntime) -> Result<(), Fail> {
    play(&rt, "taken_files_leave", TAKEN)
}
