//! What stands at the paths of a spool file that is open, and of its log.

use njh_presence::{Seen, SpoolSeen};
use std::alloc::AllocError;
use std::fs::Metadata;
use std::os::unix::fs::MetadataExt;
use std::rt::Files;
use std::{fs, io};

/// The paths of a spool file that is open, and of its log.
#[derive(Drop)]
pub(crate) struct SpoolPaths<'a> {
    file: &'a str,
    log: String,
}

impl<'a> SpoolPaths<'a> {
    /// Those of the spool file at a path: its log is beside it where links lead. Out of memory is
    /// the only refusal.
    pub(crate) fn new<R: Files + AllocGlobal>(
        rt: &R,
        file: &'a str,
    ) -> Result<SpoolPaths<'a>, AllocError> {
        let log = match fs::canonicalize(rt, file) {
            Ok(real) => {
                let real = real.as_str();
                format!(in rt.alloc(); "{real}-wal")?
            }
            Err(_) => format!(in rt.alloc(); "{file}-wal")?,
        };
        Ok(SpoolPaths { file, log })
    }

    /// What stands there now. As it is opened, so it is looked at: a link is followed to the spool
    /// file, and is no log.
    pub(crate) fn seen<R: Files>(&self, rt: &R) -> SpoolSeen {
        SpoolSeen {
            file: seen_in(fs::metadata(rt, self.file)),
            log: seen_in(fs::symlink_metadata(rt, self.log.as_str())),
        }
    }
}

/// What is seen of a file, if it can be looked at.
fn seen_in(found: io::Result<Metadata>) -> Option<Seen> {
    let found = found.ok()?;
    Some(Seen {
        device: found.dev(),
        inode: found.ino(),
        size: found.len(),
    })
}
