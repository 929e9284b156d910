//! A hub that was just opened, lent to what tries it; and what all tries share.

use crate::{looks, new_routes, orders, steps};
use njh_hub::{Hub, HubFault};
use njh_table::{LineId, Tables};
use std::alloc::{AllocError, Global};
use std::io;
use std::io::ErrorKind;

/// The first customer's line to LYON, and its line to METZ.
pub const A1: LineId = LineId {
    customer: 0,
    number: 0,
};

pub const A2: LineId = LineId {
    customer: 0,
    number: 1,
};

/// The second customer's line to LYON.
pub const B1: LineId = LineId {
    customer: 1,
    number: 0,
};

/// A line that no hub here has.
pub const NOWHERE: LineId = LineId {
    customer: 9,
    number: 0,
};

/// What is tried on a hub of its own.
#[derive(Clone, Copy)]
enum Trial {
    Steps,
    Room,
    Files,
    Looks,
    Refusal,
    Routes,
    Orders,
    Queue,
    Sink,
}

/// Tries each, on a hub of these tables.
pub(crate) fn try_each<R: Print + AllocGlobal>(rt: &R, tables: &str) -> io::Result<()> {
    for trial in [
        Trial::Steps,
        Trial::Room,
        Trial::Files,
        Trial::Looks,
        Trial::Refusal,
        Trial::Routes,
        Trial::Orders,
        Trial::Queue,
        Trial::Sink,
    ] {
        let mut hub = open(rt.alloc(), tables)?;
        let tried = try_on(rt, &mut hub, trial);
        drop(hub);
        tried?;
    }
    Ok(())
}

fn try_on<R: Print + AllocGlobal>(rt: &R, hub: &mut Hub, trial: Trial) -> io::Result<()> {
    match trial {
        Trial::Steps => steps::take(rt, hub),
        Trial::Room => steps::fit(rt, hub),
        Trial::Files => steps::keep(rt, hub),
        Trial::Looks => looks::look(rt, hub),
        Trial::Refusal => looks::refuse(rt, hub),
        Trial::Routes => new_routes::refuse(rt, hub),
        Trial::Orders => orders::give_each(rt, hub),
        Trial::Queue => orders::fill(rt, hub),
        Trial::Sink => steps::refuse(rt, hub),
    }
}

/// Tables of a text.
pub(crate) fn tables_of(alloc: Global, text: &str) -> io::Result<Tables> {
    match Tables::read(alloc, text) {
        Ok(tables) => Ok(tables),
        Err(_) => Err(io::Error::from(ErrorKind::InvalidData)),
    }
}

/// A hub of the tables that a text has.
pub(crate) fn open(alloc: Global, text: &str) -> io::Result<Hub> {
    match Hub::open(alloc, tables_of(alloc, text)?) {
        Ok(hub) => Ok(hub),
        Err(fault) => Err(of_hub(fault)),
    }
}

/// What a fault of the hub ends the program with, where none is to come.
pub(crate) fn of_hub(fault: HubFault) -> io::Error {
    match fault {
        HubFault::Memory => io::Error::from(ErrorKind::OutOfMemory),
        _ => io::Error::from(ErrorKind::InvalidInput),
    }
}

/// The bytes that hex digits spell.
pub(crate) fn bytes_of(alloc: Global, digits: &str) -> Result<Vec<u8>, AllocError> {
    match hex::decode(alloc, digits) {
        Ok(bytes) => Ok(bytes),
        Err(_) => Err(AllocError),
    }
}
