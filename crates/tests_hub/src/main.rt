//! Tries a hub by itself, without the program, and prints what it did; the file `stdout` has that,
//! written by hand.
//!
//! First come stored scripts of damaged input, then single steps and what is seen of a hub, two
//! runs of which one has another customer, and lines of scripts.
#![tactic(auto)]

mod damage;
mod looks;
mod new_routes;
mod orders;
mod pairs;
mod script_lines;
mod steps;
mod trial;

use std::{fs, io};

/// A stored file.
fn stored(rt: &HostRuntime, name: &str, ending: &str) -> io::Result<String> {
    let file = format!(in rt.alloc(); "{name}.{ending}")?;
    fs::read_to_string(rt, file.as_str())
}

/// Plays each stored script: each line of the table of `README.md` in `data`.
fn play_scripts(rt: &HostRuntime, tables: &str) -> io::Result<()> {
    let table = fs::read_to_string(rt, "README.md")?;
    for line in table.as_str().lines() {
        if let Some((name, count)) = damage::script_of(line) {
            play_script(rt, tables, name, count)?;
        }
    }
    Ok(())
}

/// Says whether a script does what is stored, wherever its piece of so many bytes is cut.
fn play_script(rt: &HostRuntime, tables: &str, name: &str, count: usize) -> io::Result<()> {
    let script = stored(rt, name, "script")?;
    let wanted = stored(rt, name, "out")?;
    let told = damage::play_all(rt.alloc(), tables, script.as_str(), count)?;
    let verdict = if told == wanted { "same" } else { "differs" };
    println!(rt; "{name}: {verdict}")
}

fn main(rt: HostRuntime) -> io::Result<()> {
    let two = stored(&rt, "two_networks", "toml")?;
    let tables = two.as_str();
    play_scripts(&rt, tables)?;
    trial::try_each(&rt, tables)?;
    pairs::compare(&rt, tables, stored(&rt, "acme_alone", "toml")?.as_str())?;
    script_lines::say_each(&rt, tables, stored(&rt, "bad_lines", "txt")?.as_str())?;
    script_lines::say_each(&rt, tables, stored(&rt, "route_lines", "txt")?.as_str())?;
    script_lines::say_each(&rt, tables, stored(&rt, "order_lines", "txt")?.as_str())?;
    script_lines::say_faults(&rt)?;
    script_lines::try_lengths(&rt, tables)
}
