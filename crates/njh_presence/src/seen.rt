//! What is seen of a file at a path.

ghost use Rattle.std.specs.Prelude.{◌≡◌, None};
ghost use Rattle.njh_presence.specs.Presence.{is_same};

/// Which file stands at a path, and how many bytes it has.
#[derive(Clone, Copy, Drop)]
pub struct Seen {
    /// The device on which it is.
    pub device: u64,
    /// Its number on that device.
    pub inode: u64,
    /// How many bytes it has.
    pub size: u64,
}

impl Seen {
    /// Whether another look saw the same file, however long.
    pub(crate) fn is_same(self, other: Seen) -> bool
        ensures { result ≡ is_same self other }
    {
        self.device == other.device && self.inode == other.inode
    }
}

/// What stands at the path of a spool file, and at that of its log.
#[derive(Clone, Copy, Drop)]
pub struct SpoolSeen {
    /// The spool file; none if nothing is there, or it can't be looked at.
    pub file: Option<Seen>,
    /// Its log, likewise.
    pub log: Option<Seen>,
}

impl SpoolSeen {
    /// Nothing is at either path.
    pub fn nothing() -> SpoolSeen
        ensures { result ≡ record { file = None; log = None } }
    {
        SpoolSeen {
            file: None,
            log: None,
        }
    }
}
