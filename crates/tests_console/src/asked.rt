//! What is asked: a line of the input, the tables that it names, and a hub with a file.

ghost use Rattle.std.specs.Prelude.{IfOk};
ghost use Rattle.njh_request.specs.Named.{IsReadOf};

use njh_hub::Hub;
use njh_request::{Request, RequestRefusal};
use njh_table::{LineId, Tables};
use std::alloc::{AllocError, Global};
use std::io;

/// Contact, the sign-on of LYON, a request of SYSOUT 1, and job 42 of ANNA to PAUL at METZ.
const PIECES: [&str; 4] = [
    "012d",
    "1002a08fcff0c929d3e8d6d540404040010000000000000400404040404040404040404040404040400000000000001026",
    "1002808fcf909900001026",
    concat!(
        "1002818fcf",
        "99c0c20064a300c160a300c12ab200ccd7c1e8d9d6d3d340c1d5d5c184b800c4d3e8d6d584c4c1d5d5c184c4d4c5e3e98c00",
        "99e0c20018a300c7140000d4c5e3e984c4d7c1e4d38400",
        "9980c605c8c5d3d3d600",
        "99d0c40004000000",
        "99800000",
        "001026"
    ),
];

/// What is stored here isn't what it should be.
pub(crate) fn bad() -> io::Error {
    io::Error::from(io::ErrorKind::InvalidData)
}

/// The tables of a text.
pub(crate) fn tables_of(alloc: Global, text: &str) -> io::Result<Tables> {
    match Tables::read(alloc, text) {
        Ok(tables) => Ok(tables),
        Err(_) => Err(bad()),
    }
}

/// A hub with the tables of a text, that has a file of ANNA's at LYON.
pub(crate) fn hub_of(alloc: Global, text: &str) -> io::Result<Hub> {
    let mut hub = match Hub::open(alloc, tables_of(alloc, text)?) {
        Ok(hub) => hub,
        Err(_) => return Err(bad()),
    };
    let line = LineId {
        customer: 0,
        number: 0,
    };
    let mut out = Vec::new(alloc);
    for digits in PIECES {
        let piece = match hex::decode(alloc, digits) {
            Ok(piece) => piece,
            Err(_) => return Err(bad()),
        };
        let _taken = hub.take(line, &piece, &mut out).is_ok();
    }
    Ok(hub)
}

/// What a line asks for, of what the tables name: it has a method, a path and a body.
pub(crate) fn request_of(
    alloc: Global,
    tables: &Tables,
    line: &str,
) -> Result<Result<Request, RequestRefusal>, AllocError>
    ensures { IfOk result (IsReadOf tables.now) }
{
    let (method, rest) = line.split_once(' ').unwrap_or((line, ""));
    let (target, body) = rest.split_once(' ').unwrap_or((rest, ""));
    let (path, query) = match target.split_once('?') {
        Some((path, query)) => (path, Some(query)),
        None => (target, None),
    };
    Request::read(alloc, tables, method, path, query, body.as_bytes())
}
