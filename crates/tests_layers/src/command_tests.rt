//! Which messages are commands.

use crate::same::is_same;
use njh_command::Command;
use njh_ebcdic::byte_of;
use njh_header::FileName;
use std::alloc::{AllocError, Global};
use std::process::Abort;
use std::test::Fail;

/// Each a message, and the command that it is in the hub's own words, or what is printed where it
/// is none.
const MESSAGES: &str = "
LIST => LIST
list => LIST
  LiSt    => LIST
HOLD LYON.42 => HOLD LYON.42
  hold    lyon.42   => HOLD LYON.42
Release Lyon.42 => RELEASE LYON.42
CANCEL LYON.42 => CANCEL LYON.42
REROUTE LYON.42 METZ => REROUTE LYON.42 METZ
 reroute  lyon.42   metz  => REROUTE LYON.42 METZ
HOLD A.1 => HOLD A.1
HOLD AB.1 => HOLD AB.1
HOLD ABC.1 => HOLD ABC.1
HOLD ABCD.1 => HOLD ABCD.1
HOLD ABCDE.1 => HOLD ABCDE.1
HOLD ABCDEF.1 => HOLD ABCDEF.1
HOLD ABCDEFG.1 => HOLD ABCDEFG.1
HOLD ABCDEFGH.1 => HOLD ABCDEFGH.1
HOLD $#@9.1 => HOLD $#@9.1
HOLD LYON.0 => HOLD LYON.0
HOLD LYON.65535 => HOLD LYON.65535
HOLD LYON.00042 => HOLD LYON.42
HOLD LYON.00000 => HOLD LYON.0
REROUTE LYON.1 ABCDEFGH => REROUTE LYON.1 ABCDEFGH
LISTS => NJH011 BAD COMMAND
LIS => NJH011 BAD COMMAND
LIST LYON.42 => NJH011 BAD COMMAND
LIST LIST => NJH011 BAD COMMAND
HOLD => NJH011 BAD COMMAND
HOLD LYON => NJH011 BAD COMMAND
HOLD LYON. => NJH011 BAD COMMAND
HOLD .42 => NJH011 BAD COMMAND
HOLD . => NJH011 BAD COMMAND
HOLD LYON.42. => NJH011 BAD COMMAND
HOLD LYON.42.1 => NJH011 BAD COMMAND
HOLD LYON..42 => NJH011 BAD COMMAND
HOLD LYON .42 => NJH011 BAD COMMAND
HOLD LYON. 42 => NJH011 BAD COMMAND
HOLD LYON.42 METZ => NJH011 BAD COMMAND
HOLD LYON.65536 => NJH011 BAD COMMAND
HOLD LYON.99999 => NJH011 BAD COMMAND
HOLD LYON.000042 => NJH011 BAD COMMAND
HOLD LYON.4A => NJH011 BAD COMMAND
HOLD LYON.-1 => NJH011 BAD COMMAND
HOLD LYON/42 => NJH011 BAD COMMAND
HOLD LYONLYONX.42 => NJH011 BAD COMMAND
HOLD LY:ON.42 => NJH011 BAD COMMAND
HOLDLYON.42 => NJH011 BAD COMMAND
RELEASE => NJH011 BAD COMMAND
CANCEL LYON => NJH011 BAD COMMAND
REROUTE => NJH011 BAD COMMAND
REROUTE LYON.42 => NJH011 BAD COMMAND
REROUTE LYON.42 METZMETZX => NJH011 BAD COMMAND
REROUTE LYON.42 ME:Z => NJH011 BAD COMMAND
REROUTE LYON.42 METZ PAUL => NJH011 BAD COMMAND
REROUTE METZ LYON.42 => NJH011 BAD COMMAND
DISPLAY => NJH011 BAD COMMAND
HELP LYON.42 => NJH011 BAD COMMAND
 => NJH011 BAD COMMAND
    => NJH011 BAD COMMAND
";

/// A text in EBCDIC; what has no byte is a blank.
fn ebcdic(alloc: Global, text: &str) -> Result<Vec<u8>, AllocError> {
    let mut bytes = Vec::new(alloc);
    for character in text.chars() {
        bytes.push(byte_of(character).unwrap_or(0x40))?;
    }
    Ok(bytes)
}

fn text_of_file(alloc: Global, verb: &str, name: FileName) -> Result<String, AllocError> {
    format!(in alloc; "{verb} {}.{}", name.node, name.number)
}

/// A command in the hub's own words.
fn text_of(alloc: Global, command: Command) -> Result<String, AllocError> {
    match command {
        Command::List => String::from_str(alloc, "LIST"),
        Command::Hold(name) => text_of_file(alloc, "HOLD", name),
        Command::Release(name) => text_of_file(alloc, "RELEASE", name),
        Command::Cancel(name) => text_of_file(alloc, "CANCEL", name),
        Command::Reroute(name, node) => {
            format!(in alloc; "REROUTE {}.{} {node}", name.node, name.number)
        }
    }
}

fn read(alloc: Global, message: &str) -> Result<String, AllocError> {
    let message = ebcdic(alloc, message)?;
    match Command::read(&message) {
        Ok(command) => text_of(alloc, command),
        Err(fault) => fault.to_string(alloc),
    }
}

#[test]
fn messages_that_are_commands(rt: HostRuntime) -> Result<(), Fail> {
    for line in MESSAGES.lines().skip(1) {
        let (message, want) = line.split_once(" => ").ok_or("a message without =>")?;
        let found = read(rt.alloc(), message)?;
        is_same(&rt, found.as_str(), want, line);
    }
    Ok(())
}
