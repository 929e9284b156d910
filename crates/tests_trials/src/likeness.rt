//! Runs of ACME with other customers and without: its own lines of what is printed are the same.

use std::alloc::{AllocError, Global};
use std::io;

/// How ACME's lines begin: frames on its lines to its peers, and its files.
const OWN: [&[u8]; 3] = [b"a1 ", b"a2 ", b"ACME "];

/// Says whether ACME's lines of what is stored of a run are those of another. ACME's events are the
/// same in both.
pub fn compare<R: Print + AllocGlobal>(
    rt: &R,
    name: &str,
    output: &[u8],
    other: &[u8],
) -> io::Result<()> {
    let own = own_lines(rt.alloc(), output)?;
    let wanted = own_lines(rt.alloc(), other)?;
    let count = own.len();
    if own == wanted {
        println!(rt; "{name}: the same {count} bytes of ACME")
    } else {
        println!(rt; "{name}: other bytes of ACME")
    }
}

fn own_lines(alloc: Global, text: &[u8]) -> Result<Vec<u8>, AllocError> {
    let mut own = Vec::new(alloc);
    for line in text.split_inclusive(|byte| *byte == b'\n') {
        if OWN.iter().any(|beginning| line.starts_with(beginning)) {
            own.extend_from_slice(line)?;
        }
    }
    Ok(own)
}
