//! A customer's routes.

ghost use Rattle.std.specs.Prelude.{◌≡◌, ◌<◌, ◌++◌, [], ◌∷◌, length, slice_get, None, Some, OnOk};
ghost use Rattle.njh_table.specs.Entries.{lines_to};
ghost use Rattle.njh_table.specs.TableFile.{route_entry};

use indexmap::IndexMap;
use njh_ebcdic::Name;
use std::alloc::{AllocError, Global};
use std::marker::Model;

/// The lines of a route, by their numbers within the customer.
#[derive(Clone, Copy, Debug, PartialEq, Eq)]
pub struct RouteLines {
    /// The line that leads to the route's node.
    pub line: u16,
    /// Another that does so too, if there is one.
    pub second: Option<u16>,
}

/// The nodes that a customer has routes for, each with its lines, in the order of the file.
#[derive(Drop)]
pub(crate) struct Routes {
    lines: IndexMap<Name, RouteLines>,
}

impl Model for Routes {
    ghost use Rattle.std.specs.Prelude.{List, map};
    ghost use Rattle.njh_table.specs.Entries.{RouteEntry};
    ghost use Rattle.njh_table.specs.TableFile.{route_entry};

    ghost Value = { List RouteEntry };

    ghost view = { λ r. map route_entry r.lines.entries };
}

impl Routes {
    pub(crate) fn new(alloc: Global) -> Routes
        ensures { result ≡ [] }
    {
        Routes {
            lines: IndexMap::new(alloc),
        }
    }

    /// No routes, in memory from where these have theirs.
    pub(crate) fn emptied(&self) -> Routes
        ensures { result ≡ [] }
    {
        Routes::new(*self.lines.allocator())
    }

    pub(crate) fn len(&self) -> usize
        ensures { result ≡ length self.now }
    {
        self.lines.len()
    }

    /// A node and its lines, by their place in the file.
    pub(crate) fn at(&self, index: usize) -> (Name, RouteLines)
        requires { index < length self.now }
        ensures { slice_get self.now index ≡ Some (route_entry result) }
    {
        let (node, lines) = self.lines.get_index(index).unwrap();
        (*node, *lines)
    }

    /// The lines of a node.
    pub(crate) fn get(&self, node: Name) -> Option<RouteLines>
        ensures { result ≡ lines_to self.now node }
    {
        self.lines.get(&node).copied()
    }

    /// Adds a route for a node that has none.
    pub(crate) fn insert(&mut self, node: Name, lines: RouteLines) -> Result<(), AllocError>
        requires { lines_to self.old node ≡ None }
        ensures { OnOk result (self.new ≡ self.old ++ route_entry (node, lines) ∷ []) }
    {
        self.lines.insert(node, lines)?;
        Ok(())
    }
}
