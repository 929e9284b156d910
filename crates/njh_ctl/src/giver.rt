//! Who gives orders, and under which names.

ghost use Rattle.std.specs.Prelude.{◌≡◌, IfOk, string_bytes};
ghost use Rattle.njh_ctl.specs.Orders.{order_name};

use std::alloc::{AllocError, Global};
use std::marker::Model;

/// Who gives orders, and what their names are made of.
#[derive(Drop)]
pub struct Giver {
    alloc: Global,
    by: String,
    mark: u64,
}

impl Model for Giver {
    ghost use Rattle.std.specs.Prelude.{string_bytes};
    ghost use Rattle.njh_ctl.specs.Orders.{GiverView};

    ghost Value = { GiverView };

    ghost view = { λ giver. record { by = string_bytes giver.by; mark = giver.mark } };
}

impl Giver {
    /// Somebody of this name, whose orders are told from those of others by this mark.
    pub fn new(alloc: Global, by: String, mark: u64) -> Giver
        ensures by { result.by ≡ string_bytes by }
        ensures mark { result.mark ≡ mark }
    {
        Giver { alloc, by, mark }
    }

    /// Who it is.
    pub(crate) fn by(&self) -> &str
        ensures { result.now ≡ self.now.by }
    {
        self.by.as_str()
    }

    /// The name of the order at a place among those that one command gives.
    pub(crate) fn name(&self, at: usize) -> Result<String, AllocError>
        ensures { IfOk result (λ name. string_bytes name ≡ order_name self.now at) }
    {
        let mark = self.mark;
        format!(in self.alloc; "ctl-{mark}-{at}")
    }
}
