//! What waits for a connection that was ended from here.

ghost use Rattle.std.specs.Prelude.{◌≡◌, [], false, IfOk};

use crate::outbox::Outbox;
use std::alloc::{AllocError, Global};

/// What waits for a connection that was ended from here. A struct of its own: each field of a type
/// with a parameter costs proofs.
#[derive(Drop)]
pub(crate) struct Farewell {
    /// The bytes that are still to go out.
    pub(crate) waiting: Outbox,
    /// Until when they may, in milliseconds.
    pub(crate) until: u64,
    /// Whether the connection was told that no more is sent.
    pub(crate) is_shut: bool,
}

impl Farewell {
    /// Nobody leaves. Out of memory is the only refusal.
    pub(crate) fn new(alloc: Global) -> Result<Farewell, AllocError>
        ensures { IfOk result (λ farewell.
            (farewell.waiting ≡ []) × (farewell.until ≡ 0) × (farewell.is_shut ≡ false)) }
    {
        Ok(Farewell {
            waiting: Outbox::new(alloc)?,
            until: 0,
            is_shut: false,
        })
    }

    /// Takes over all that waits, which may go out until then.
    pub(crate) fn begin(&mut self, waiting: &mut Outbox, until: u64)
        ensures rest { self.new.waiting ≡ waiting.old }
        ensures until { self.new.until ≡ until }
        ensures shut { self.new.is_shut ≡ false }
        ensures left { waiting.new ≡ [] }
    {
        self.waiting.take_all(waiting);
        self.until = until;
        self.is_shut = false;
    }

    /// Nobody leaves any more.
    pub(crate) fn clear(&mut self)
        ensures rest { self.new.waiting ≡ [] }
        ensures until { self.new.until ≡ 0 }
        ensures shut { self.new.is_shut ≡ false }
    {
        self.waiting.clear();
        self.until = 0;
        self.is_shut = false;
    }
}
