//! The keys of the maps of headers.

use std::io;
use std::random::RandomSource;

/// Keys that anyone may know. They are meant to keep a map fast whose names an adversary chooses,
/// and a head has at most 64 names.
pub(crate) struct KnownKeys;

impl RandomSource for KnownKeys {
    fn fill_bytes(&self, _buf: &mut [u8]) -> io::Result<()> {
        Ok(())
    }
}
