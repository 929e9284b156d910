//! Plays cases on services whose networks, clocks, logs and visitors are in memory, and says of
//! each whether what is seen is what its rows want: what the hub sends and dials, the lines of
//! the log, word for word and in their order, and what the console answers. `case.rt` says how
//! rows are read.
//!
//! Then come hubs that are joined for an hour, pieces of a service by themselves, and a service
//! over sockets of this machine. The file `stdout` has what is to be said, written by hand.
#![tactic(auto)]

mod act;
mod case;
mod joined;
mod joint;
mod loopback;
mod network;
mod peer;
mod pieces;
mod play;
mod scene;
mod seen;
mod serving;
mod socket;
mod texts;
mod world;

use std::{fs, io};

/// The files of cases.
const FILES: [&str; 15] = [
    "listening.cases",
    "dialling.cases",
    "groups.cases",
    "log.cases",
    "ports.cases",
    "prompting.cases",
    "routes.cases",
    "from.cases",
    "reload.cases",
    "sessions.cases",
    "states.cases",
    "wrong.cases",
    "spool.cases",
    "console.cases",
    "moments.cases",
];

fn main(rt: HostRuntime) -> io::Result<()> {
    let texts = fs::read_to_string(&rt, "texts.txt")?;
    for file in FILES {
        play::play_file(&rt, texts.as_str(), file)?;
    }
    joined::join_each(&rt, texts.as_str())?;
    let endpoints = fs::read_to_string(&rt, "endpoints.toml")?;
    pieces::show(&rt, endpoints.as_str())?;
    let loopback = fs::read_to_string(&rt, "loopback.toml")?;
    loopback::play(&rt, texts.as_str(), loopback.as_str())?;
    socket::play(&rt)
}
