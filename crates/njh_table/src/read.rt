//! The table file in TOML, and the tables without one.

use crate::fault::TableFault;
use crate::places::{Part, PlacedFault};
use crate::tables::Tables;
use crate::walk::walk_in;
use std::alloc::Global;

/// Two customers with a line each, who share nothing but the hub.
const BASE: &str = r#"
capacity = 200

[[customer]]
name = "ACME"
hub = "BUREAU"
quota = 100
files = 8

[[customer.line]]
name = "a1"
node = "LYON"
role = "answer"
block = 1024
streams = 4

[[customer.route]]
node = "LYON"
line = "a1"

[[customer]]
name = "BOLT"
hub = "BUREAU"
quota = 100
files = 8

[[customer.line]]
name = "b1"
node = "LYON"
role = "answer"
block = 1024
streams = 4

[[customer.route]]
node = "LYON"
line = "b1"
"#;

impl Tables {
    ghost use Rattle.std.specs.Prelude.{◌≡◌, ◌≢◌, ◌↔◌, None, IfOk, IfErr};
    ghost use Rattle.toml.specs.Parse.{parse_document};
    ghost use Rattle.njh_table.specs.Accepted.{IsAccepted};
    ghost use Rattle.njh_table.specs.Base.{base_tables};
    ghost use Rattle.njh_table.specs.Walk.{tables_of, walk_of};

    /// Reads a table file. `BadToml` comes where the text is no TOML, then the first fault of the
    /// walk over it, and `Memory` wherever memory is refused. Keys that have no meaning here are
    /// ignored.
    pub fn read(alloc: Global, text: &str) -> Result<Tables, TableFault>
        ensures read { IfOk result (λ t. tables_of text.now ≡ Ok t) }
        ensures fault { IfErr result (λ fault. fault ≢ TableFault.Memory → tables_of text.now ≡ Err fault) }
        ensures no_toml { IfErr result (λ fault.
            fault ≢ TableFault.Memory → (fault ≡ TableFault.BadToml) ↔ (parse_document text.now ≡ None)) }
        ensures accepted { IfOk result IsAccepted }
    {
        match Tables::check(alloc, text) {
            Ok(tables) => Ok(tables),
            Err(placed) => Err(placed.fault),
        }
    }

    /// Reads a table file as `read` does, and says of its first fault where it is.
    pub fn check(alloc: Global, text: &str) -> Result<Tables, PlacedFault>
        ensures read { IfOk result (λ t. walk_of text.now ≡ Ok t) }
        ensures fault { IfErr result (λ placed.
            placed.fault ≢ TableFault.Memory → walk_of text.now ≡ Err placed) }
        ensures same { IfErr result (λ placed.
            placed.fault ≢ TableFault.Memory → tables_of text.now ≡ Err placed.fault) }
        ensures no_toml { IfErr result (λ placed.
            placed.fault ≢ TableFault.Memory → (placed.fault ≡ TableFault.BadToml) ↔ (parse_document text.now ≡ None)) }
        ensures accepted { IfOk result IsAccepted }
    {
        match toml::table_from_str(alloc, text) {
            Ok(document) => walk_in(alloc, &document),
            Err(error) if error.is_memory() => Err(Part::File.fault(TableFault::Memory)),
            Err(_) => Err(Part::File.fault(TableFault::BadToml)),
        }
    }

    /// The tables without a file: ACME with line a1, and BOLT with line b1, each with a node LYON
    /// of its own.
    pub fn base(alloc: Global) -> Result<Tables, TableFault>
        ensures base { IfOk result (λ t. t ≡ base_tables) }
        ensures memory { IfErr result (λ fault. fault ≡ TableFault.Memory) }
    {
        Tables::read(alloc, BASE)
    }
}
