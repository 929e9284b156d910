//! A service that is made, lent and dropped in one place, over whatever network: nothing else
//! names its type, nor those of what it is made of, which the borrow checker doesn't cover where
//! the network has a lifetime.

use njh_console::Console;
use njh_lines::Exchange;
use njh_log::{Log, LogStyle};
use njh_revision::{Revision, TableSource};
use njh_service::{Bureau, ServeFault, Service, service_on};
use njh_sites::Listening;
use njh_table::Tables;
use njh_turns::KeepsNothing;
use njh_wire::{LineWire, Network};
use std::alloc::Global;
use std::io;
use std::io::{ErrorKind, Write};

/// How many wait for a line at most.
const GUESTS: u64 = 64;

/// What runs in rounds.
pub trait Rounds {
    /// Runs a round.
    fn round(&mut self);
}

impl<N: Network + Drop, L: Write + Drop, S: TableSource + Drop> Rounds
    for Service<LineWire<N::Connection>, Bureau<N, L, S>, KeepsNothing> {
    fn round(&mut self) {
        let _ran = self.run(Some(1));
    }
}

/// Who plays on a hub that is served.
pub trait Player {
    /// Plays, round by round. Answers whether all that has to be served is.
    fn play<H: Rounds>(&mut self, hub: &mut H) -> io::Result<bool>;
}

/// What is served, and how.
#[derive(Clone, Copy)]
pub struct Plan<'a> {
    pub alloc: Global,
    /// The tables whose lines are served.
    pub tables: &'a str,
    /// How these listen.
    pub listening: Listening,
    /// How the lines of the log are written.
    pub style: LogStyle,
}

/// Serves lines on a network, with a log and a source of new tables, while somebody plays. Answers
/// whether they are served: not if one of them can't listen that has to.
pub(crate) fn serve<N: Network + Drop, L: Write + Drop, S: TableSource + Drop, P: Player>(
    plan: Plan<'_>,
    network: N,
    log: L,
    source: S,
    player: &mut P,
) -> io::Result<bool> {
    let tables = tables_of(plan.alloc, plan.tables)?;
    let bureau = bureau_of(plan, network, log, source)?;
    match service_on(
        plan.alloc,
        KeepsNothing,
        tables,
        bureau,
        plan.listening,
        true,
    ) {
        Ok(mut service) => player.play(&mut service),
        Err((fault, _, bureau)) => {
            drop(bureau);
            match fault {
                ServeFault::Device => Ok(false),
                _ => Err(io::Error::from(ErrorKind::OutOfMemory)),
            }
        }
    }
}

/// An attendant that serves no line yet, with a console that nobody visits.
fn bureau_of<N: Network + Drop, L: Write + Drop, S: TableSource + Drop>(
    plan: Plan<'_>,
    network: N,
    log: L,
    source: S,
) -> io::Result<Bureau<N, L, S>> {
    let alloc = plan.alloc;
    let known = tables_of(alloc, plan.tables)?;
    let revision = Revision::new(alloc, known, source)?;
    let console = Console::new(alloc)?;
    let exchange = Exchange::new(alloc, network, Log::new(Some(log), plan.style), GUESTS);
    Ok(Bureau::new(alloc, "9.9", exchange, revision, console))
}

/// The tables that a text has.
pub(crate) fn tables_of(alloc: Global, text: &str) -> io::Result<Tables> {
    match Tables::read(alloc, text) {
        Ok(tables) => Ok(tables),
        Err(_) => Err(io::Error::from(ErrorKind::InvalidData)),
    }
}
