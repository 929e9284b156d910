//! Laws over the definitions.

ghost use Rattle.std.specs.Prelude.{◌≡◌, ◌≢◌, ℕ, ◌<◌, ◌↔◌, Bool, List, Some, Ok, Err, length};
ghost use Rattle.std.specs.declared.net.ip_addr.IpAddr.{IpAddr};
ghost use Rattle.std.specs.declared.net.socket_addr.SocketAddr.{SocketAddr};
ghost use Rattle.std.specs.Net.Grammar.{IsIpText, IsSocketText};
ghost use Rattle.toml.specs.Data.{Members};
ghost use Rattle.njh_table.specs.declared.fault.TableFault.{TableFault as Fault};
ghost use Rattle.njh_table.specs.Accepted.{IsAccepted};
ghost use Rattle.njh_table.specs.Addresses.{address_of, ip_of};
ghost use Rattle.njh_table.specs.Entries.{route_of};
ghost use Rattle.njh_table.specs.declared.LineId.{LineId};
ghost use Rattle.njh_table.specs.Marks.{entry_marked, entry_unmarked, without_marks, with_mark};
ghost use Rattle.njh_table.specs.SameEntry.{SameEntry};
ghost use Rattle.njh_table.specs.TableFile.{NamedCustomer, TableFile, customer_at, entry_of};
ghost use Rattle.njh_table.specs.Walk.{tables_in, tables_of};

use crate::fault::TableFault;

/// What the walk accepts is within the limits, and its quotas add to at most the capacity. What it
/// refuses is a fault of the file's contents.
pub fn walk_keeps_limits()
    ensures accepted { (text : List ℕ) (t : TableFile) → tables_of text ≡ Ok t → IsAccepted t }
    ensures refused { (keys : Members) (fault : Fault) → tables_in keys ≡ Err fault
        → (fault ≢ TableFault.BadToml) × (fault ≢ TableFault.Memory) }
{}

/// The address that a text writes, with a port or without one, is the one that the grammar of such
/// texts gives; a text outside that grammar writes none.
pub fn addresses_are_of_the_grammar()
    ensures spelled { (text : List ℕ) (address : SocketAddr)
        → IsSocketText text address ↔ (address_of text ≡ Some address) }
    ensures bare { (text : List ℕ) (address : IpAddr) → IsIpText text address ↔ (ip_of text ≡ Some address) }
{}

/// Customers with the same entry route alike, wherever each stands in its table; and what can be
/// read of an entry is all of it.
pub fn same_entries_route_alike()
    ensures alike { (t u : TableFile) (c d : ℕ) → SameEntry (customer_at t c) (customer_at u d)
        → (node : List ℕ) → route_of (entry_of (customer_at t c)) node ≡ route_of (entry_of (customer_at u d)) node }
    ensures equal { (c d : NamedCustomer) → SameEntry c d → c ≡ d }
{}

/// The mark of a line is a part of its customer's entry, and of no other's; all else of that entry
/// stays.
pub fn marks_change_one_entry()
    ensures own { (t : TableFile) (id : LineId) (up : Bool) → id.customer < length t.customers
        → entry_of (customer_at (with_mark id up t) id.customer)
        ≡ entry_marked id.number up (entry_of (customer_at t id.customer)) }
    ensures others { (t : TableFile) (id : LineId) (up : Bool) (c : ℕ) → c ≢ id.customer
        → customer_at (with_mark id up t) c ≡ customer_at t c }
    ensures all { (t : TableFile) (c : ℕ) → c < length t.customers
        → entry_of (customer_at (without_marks t) c) ≡ entry_unmarked (entry_of (customer_at t c)) }
{}
