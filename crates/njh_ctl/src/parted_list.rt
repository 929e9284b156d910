//! Lists that come in parts.

ghost use Rattle.std.specs.Prelude.{◌≡◌, IfErr, IfOk, OnOk, map};
ghost use Rattle.serde_json.specs.View.{view};
ghost use Rattle.njh_ctl.specs.Asked.{part_asked};
ghost use Rattle.njh_ctl.specs.Exchanges.{text_of};
ghost use Rattle.njh_ctl.specs.Faults.{IsPlain};
ghost use Rattle.njh_ctl.specs.Lists.{IsLooked, RowOf, is_filtered, key_of, list_view};
ghost use Rattle.njh_ctl.specs.Shown.{Adds, Rows};

use crate::answers::text_in;
use crate::choosing::{Filter, facts_of, has_choice, is_as_wanted, is_chosen};
use crate::fault::CtlFault;
use crate::question::Question;
use crate::shown::{show_customers, show_files};
use crate::shown_lines::show_lines;
use crate::shown_messages::show_line_messages;
use serde_json::Value;
use std::alloc::Global;

/// A list that comes in parts.
#[derive(Clone, Copy)]
pub(crate) enum PartedList<'a> {
    /// The customers.
    Customers,
    /// A customer's lines, or that of a name.
    Lines(&'a str, Option<&'a str>),
    /// The messages of a customer's line of a name.
    Messages(&'a str, &'a str),
    /// A customer's files, those that are looked for.
    Files(&'a str, Filter<'a>),
}

impl<'a> PartedList<'a> {
    /// What asks for the part from a place on.
    pub(crate) fn question(self, from: u64) -> Question<'a>
        ensures { text_of result ≡ part_asked (list_view self.entry) from }
    {
        match self {
            PartedList::Customers => Question::Customers(from),
            PartedList::Lines(customer, _) => Question::Lines(customer, from),
            PartedList::Messages(customer, _) => Question::Lines(customer, from),
            PartedList::Files(customer, _) => Question::Files(customer, from),
        }
    }

    /// The member of an answer that has the items.
    pub(crate) fn key(self) -> &'static str
        ensures { result.now ≡ key_of (list_view self.entry) }
    {
        match self {
            PartedList::Customers => "customers",
            PartedList::Lines(_, _) => "lines",
            PartedList::Messages(_, _) => "lines",
            PartedList::Files(_, _) => "files",
        }
    }

    /// Whether only some items are looked for.
    pub(crate) fn is_filtered(self) -> bool
        ensures { result ≡ is_filtered (list_view self.entry) }
    {
        match self {
            PartedList::Customers => false,
            PartedList::Lines(_, line) => line.is_some(),
            PartedList::Messages(_, _) => true,
            PartedList::Files(_, filter) => has_choice(filter.choice),
        }
    }

    /// Whether an item is looked for.
    pub(crate) fn looks_for(self, item: &Value) -> Result<bool, CtlFault>
        ensures looked { IfOk result (IsLooked (list_view self.entry) (view item.now)) }
        ensures fault { IfErr result IsPlain }
    {
        match self {
            PartedList::Customers => Ok(true),
            PartedList::Lines(_, line) => Ok(is_as_wanted(text_in(item, "name")?, line)),
            PartedList::Messages(_, line) => {
                Ok(is_as_wanted(text_in(item, "name")?, Some(line)))
            }
            PartedList::Files(_, filter) => Ok(is_chosen(filter, facts_of(item)?)),
        }
    }

    /// Adds a row for each of the items.
    pub(crate) fn show(
        self,
        alloc: Global,
        items: &[Value],
        out: &mut String,
    ) -> Result<(), CtlFault>
        ensures shown { OnOk result (Adds (Rows (RowOf (list_view self.entry)) (map view items.now)) out.old out.new) }
        ensures fault { IfErr result IsPlain }
    {
        match self {
            PartedList::Customers => show_customers(alloc, items, out),
            PartedList::Lines(customer, line) => {
                show_lines(alloc, customer, items, line.is_some(), out)
            }
            PartedList::Messages(customer, _) => show_line_messages(alloc, customer, items, out),
            PartedList::Files(customer, _) => show_files(alloc, customer, items, out),
        }
    }
}
