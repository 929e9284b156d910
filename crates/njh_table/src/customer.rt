//! A customer's entry in the table.

ghost use Rattle.std.specs.Prelude.{◌≡◌, ◌<◌, false, length, map, slice_get, slice_index_or, Some};
ghost use Rattle.njh_table.specs.Entries.{line_now, route_of};
ghost use Rattle.njh_table.specs.TableFile.{entry_of, route_entry};

use crate::Route;
use crate::line::NamedLine;
use crate::routes::{RouteLines, Routes};
use njh_ebcdic::Name;
use std::marker::Model;

/// A customer: its name, and what its entry says of its private network.
#[derive(Drop)]
pub struct NamedCustomer {
    pub(crate) name: Name,
    pub(crate) hub: Name,
    pub(crate) quota: u32,
    pub(crate) files: u32,
    pub(crate) lines: Vec<NamedLine>,
    pub(crate) routes: Routes,
}

impl Model for NamedCustomer {
    ghost use Rattle.njh_table.specs.TableFile as table;

    ghost Value = { table.NamedCustomer };

    ghost view = { λ c. record {
      name = c.name;
      hub = c.hub;
      quota = c.quota;
      files = c.files;
      lines = c.lines.items;
      routes = c.routes;
    } };
}

impl NamedCustomer {
    /// The customer's name.
    pub fn name(&self) -> Name
        ensures { result ≡ self.now.name }
    {
        self.name
    }

    /// The name that the hub has in the customer's network.
    pub fn hub(&self) -> Name
        ensures { result ≡ self.now.hub }
    {
        self.hub
    }

    /// How many blocks of the spool the customer may use.
    pub fn quota(&self) -> u32
        ensures { result ≡ self.now.quota }
    {
        self.quota
    }

    /// How many files the customer may have on the spool, whole and partial ones.
    pub fn files(&self) -> u32
        ensures { result ≡ self.now.files }
    {
        self.files
    }

    /// The lines, in the order of the file.
    pub fn lines(&self) -> &[NamedLine]
        ensures { result.now ≡ self.now.lines }
    {
        self.lines.as_slice()
    }

    /// How many routes there are.
    pub fn routes(&self) -> usize
        ensures { result ≡ length self.now.routes }
    {
        self.routes.len()
    }

    /// The node of a route and its lines, by the route's place in the file.
    pub fn route_at(&self, index: usize) -> (Name, RouteLines)
        requires { index < length self.now.routes }
        ensures { slice_get self.now.routes index ≡ Some (route_entry result) }
    {
        self.routes.at(index)
    }

    /// Where a node's files and messages go now: by a route's second line where it has one and the
    /// first isn't up.
    pub fn route(&self, node: Name) -> Route
        ensures { result ≡ route_of (entry_of self.now) node }
    {
        if self.hub == node {
            return Route::Here;
        }
        match self.routes.get(node) {
            Some(lines) => Route::Line(self.line_now(lines)),
            None => Route::Unknown,
        }
    }

    /// Which of two lines is gone by now.
    fn line_now(&self, lines: RouteLines) -> u16
        ensures { result ≡ line_now (map (λ l. l.up) self.now.lines) lines }
    {
        match lines.second {
            Some(second) if !self.is_up(lines.line) => second,
            _ => lines.line,
        }
    }

    /// Whether a line is up, if it is there.
    fn is_up(&self, line: u16) -> bool
        ensures { result ≡ slice_index_or (map (λ l. l.up) self.now.lines) line false }
    {
        match self.lines.get(usize::from(line)) {
            Some(line) => line.is_up(),
            None => false,
        }
    }
}
