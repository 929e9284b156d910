//! The lines of the whole hub by their names.

ghost use Rattle.std.specs.Prelude.{◌≡◌, ◌++◌, [], ◌∷◌, length, false, OnOk, bytes_eq};
ghost use Rattle.std.specs.List.{list_any};
ghost use Rattle.std.specs.Map.{lookup};
ghost use Rattle.njh_table.specs.TableFile.{names_in, own_line};

use crate::LineId;
use indexmap::IndexMap;
use std::alloc::{AllocError, Global};
use std::marker::Model;

/// Each line's name and the line, in the order in which they came. No name stands twice.
#[derive(Drop)]
pub(crate) struct Owners {
    lines: IndexMap<String, LineId>,
}

impl Model for Owners {
    ghost use Rattle.std.specs.Prelude.{map};
    ghost use Rattle.std.specs.String.{string_bytes};
    ghost use Rattle.njh_table.specs.TableFile.{Owners as Lines};

    ghost Value = { Lines };

    ghost view = { λ o. map (λ e. (string_bytes e.0, e.1)) o.lines.entries };
}

impl Owners {
    pub(crate) fn new(alloc: Global) -> Owners
        ensures { result ≡ [] }
    {
        Owners {
            lines: IndexMap::new(alloc),
        }
    }

    pub(crate) fn len(&self) -> usize
        ensures { result ≡ length (names_in self.now) }
    {
        self.lines.len()
    }

    pub(crate) fn contains(&self, name: &str) -> bool
        ensures { result ≡ list_any (bytes_eq name.now) (names_in self.now) }
    {
        self.lines.contains_key(name)
    }

    /// The line of a name.
    pub(crate) fn get(&self, name: &str) -> Option<LineId>
        ensures { result ≡ lookup (bytes_eq name.now) self.now }
    {
        self.lines.get(name).copied()
    }

    /// The number of the line of a name, where it is a line of this customer.
    pub(crate) fn own_line(&self, customer: u16, name: &str) -> Option<u16>
        ensures { result ≡ own_line self.now customer name.now }
    {
        let id = self.get(name)?;
        (id.customer == customer).then_some(id.number)
    }

    /// Adds a line whose name is new.
    pub(crate) fn insert(&mut self, alloc: Global, name: &str, id: LineId) -> Result<(), AllocError>
        requires { list_any (bytes_eq name.now) (names_in self.old) ≡ false }
        ensures { OnOk result (self.new ≡ self.old ++ (name.now, id) ∷ []) }
    {
        let name = String::from_str(alloc, name)?;
        self.lines.insert(name, id)?;
        Ok(())
    }
}
