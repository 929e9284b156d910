//! The cases of a file.
//!
//! A case begins with `case NAME`, and an empty line stands between two. Rows behind a `#` say
//! what it shows. `tables FILE` names its tables, `listens` the address at which its lines listen if
//! that isn't 10.0.0.100, and `shows` what is seen beside what the hub sends, dials, logs and
//! answers (`closes`, `waits`, `looks`). Then come its acts: the moment in milliseconds, the number
//! of the peer whose act it is, what is done (`deed_of`), and with what.
//! Bytes are hex digits or names of `texts.txt` behind an `@`; `visits` is followed by a method,
//! a path and a body, `table` by the file of the new tables, `spool` by what stands at the paths
//! of the spool file and of its log (`stands_in`). A `+` behind the moment says that
//! the act isn't seen by the wait that sees the one before it. `FIRST..LAST/STEP` in place of a
//! moment stands for many.
//!
//! A row says how the case ends, and all behind it are what is to be seen: `until MOMENT` what is
//! seen up to then, once the lines are served; `ends MOMENT` the same, and that the service ends
//! of itself at that moment; `whole plain`, `whole priority` and `whole json` all that is seen in
//! 31.9 seconds, by the style of the log; `refused` all that is seen of a service whose lines
//! each have to listen, and which isn't begun. A row `told STATUS: BODY` stands for the console's
//! whole answer.

use crate::act::{Act, Deed, deed_of, moments_of};
use crate::seen::Shows;
use crate::texts::{add_wanted, bytes_of, request_of};
use njh_log::LogStyle;
use std::alloc::Global;
use std::net::{IpAddr, Ipv4Addr};
use std::{fs, io};

/// Where the lines of a case listen, if it doesn't say.
const ADDRESS: [u8; 4] = [10, 0, 0, 100];

/// How a case ends, and what of it is compared.
#[derive(Clone, Copy)]
pub enum End {
    /// What is seen up to a moment.
    Until(u64),
    /// The same, and that the service ends of itself then.
    Ends(u64),
    /// All that is seen, by a log whose lines are written so.
    Whole(LogStyle),
    /// That no lines are served.
    Refused,
}

/// A case.
#[derive(Drop)]
pub struct Case {
    pub tables: String,
    /// Where its lines listen.
    pub address: IpAddr,
    pub acts: Vec<Act>,
    pub shows: Shows,
    /// Not said yet: the rows so far say what is done.
    pub end: Option<End>,
    /// What is to be seen.
    pub wanted: Vec<u8>,
}

impl Case {
    /// One of which nothing was read yet.
    pub(crate) fn new(alloc: Global) -> Case {
        Case {
            tables: String::new(alloc),
            address: IpAddr::V4(Ipv4Addr::from(ADDRESS)),
            acts: Vec::new(alloc),
            shows: Shows::NOTHING,
            end: None,
            wanted: Vec::new(alloc),
        }
    }

    /// Reads a row. Answers whether it says something.
    pub(crate) fn read(&mut self, rt: &HostRuntime, texts: &str, row: &str) -> io::Result<bool> {
        if self.end.is_some() {
            add_wanted(texts, row, &mut self.wanted);
            return Ok(true);
        }
        let (word, rest) = row.split_once(' ').unwrap_or((row, ""));
        match word {
            "#" => Ok(true),
            "tables" => {
                self.tables = stored(rt, rest)?;
                Ok(true)
            }
            "listens" => Ok(self.listen(rest)),
            "shows" => Ok(self.show(rest)),
            _ => {
                self.end = end_of(word, rest);
                if self.end.is_some() {
                    return Ok(true);
                }
                self.read_act(rt, texts, word, rest)
            }
        }
    }

    /// That its lines listen at this address. Answers whether it is one.
    fn listen(&mut self, word: &str) -> bool {
        match word.parse::<IpAddr>() {
            Ok(address) => {
                self.address = address;
                true
            }
            Err(_) => false,
        }
    }

    /// That this is seen too. Answers whether there is such a thing.
    fn show(&mut self, word: &str) -> bool {
        match word {
            "closes" => self.shows.closes = true,
            "waits" => self.shows.waits = true,
            "looks" => self.shows.looks = true,
            _ => return false,
        }
        true
    }

    /// Reads an act. Answers whether it is one.
    fn read_act(
        &mut self,
        rt: &HostRuntime,
        texts: &str,
        word: &str,
        rest: &str,
    ) -> io::Result<bool> {
        let (word, is_apart) = match word.strip_suffix("+") {
            Some(word) => (word, true),
            None => (word, false),
        };
        let (number, rest) = rest.split_once(' ').unwrap_or((rest, ""));
        let (done, rest) = rest.split_once(' ').unwrap_or((rest, ""));
        let (Some(moments), Some(deed)) = (moments_of(word), deed_of(done, rest)) else {
            return Ok(false);
        };
        let Ok(peer) = number.parse::<usize>() else {
            return Ok(false);
        };
        for number in 0..moments.count() {
            self.acts.push(Act {
                at: moments.at(number),
                is_apart,
                peer,
                deed,
                bytes: with_bytes(rt, texts, deed, rest)?,
            })?;
        }
        Ok(true)
    }
}

/// The bytes of an act.
fn with_bytes(rt: &HostRuntime, texts: &str, deed: Deed, rest: &str) -> io::Result<Vec<u8>> {
    match deed {
        Deed::Sends => bytes_of(rt.alloc(), texts, rest),
        Deed::Visits => Ok(request_of(rt.alloc(), rest)),
        Deed::Changes => Ok(stored(rt, rest)?.into_bytes()),
        _ => Ok(Vec::new(rt.alloc())),
    }
}

/// Tables that are stored.
fn stored(rt: &HostRuntime, name: &str) -> io::Result<String> {
    let file = format!(in rt.alloc(); "{name}.toml")?;
    fs::read_to_string(rt, file.as_str())
}

/// How a case ends, if a row says so.
fn end_of(word: &str, rest: &str) -> Option<End> {
    match word {
        "until" => Some(End::Until(rest.parse::<u64>().ok()?)),
        "ends" => Some(End::Ends(rest.parse::<u64>().ok()?)),
        "whole" => Some(End::Whole(LogStyle {
            is_json: rest == "json",
            has_priority: rest == "priority",
        })),
        "refused" => Some(End::Refused),
        _ => None,
    }
}
