//! Whether the tables of a database are those of a spool.

ghost use Rattle.std.specs.Prelude.{◌≡◌, ◌↔◌, [], ◌∷◌, Some, false, List, ℕ, map, IsTrue, IfOk};
ghost use Rattle.njh_spoolfile.specs.Tables.{value_column, id_column, keyed, spool_table, files_table, records_table};
ghost use Rattle.njh_spoolfile.specs.Tables.{spool_schema, no_tables};

use sqlite_items::Items;
use sqlite_schema::code::Terms;
use sqlite_schema::schema::{Column, Kind, Schema, Stamps, Table};
use sqlite_value::keys::Collation;
use sqlite_value::value::Value;
use std::alloc::{AllocError, Global};

fn is_strict(column: &Column, name: &str, kind: Kind) -> bool
    ensures { IsTrue result ↔ (column.now ≡ record (value_column name.now kind) { not_null = column.now.not_null }) }
{
    column.name.as_slice() == name.as_bytes()
        && column.kind == kind
        && column.is_strict
        && matches!(column.default, Value::Null)
        && column.collation == Collation::Binary
}

fn is_column(column: &Column, name: &str, kind: Kind) -> bool
    ensures { IsTrue result ↔ (column.now ≡ value_column name.now kind) }
{
    column.not_null && is_strict(column, name, kind)
}

fn is_id_column(column: &Column, name: &str) -> bool
    ensures { IsTrue result ↔ (column.now ≡ id_column name.now) }
{
    !column.not_null && is_strict(column, name, Kind::Integer)
}

fn are_columns(columns: &[Column], wanted: &[(&str, Kind)]) -> bool
    ensures { IsTrue result ↔ (columns.now ≡ map (λ w. value_column w.0.now w.1) wanted.now) }
{
    if columns.len() != wanted.len() {
        return false;
    }
    for at in 0..columns.len() {
        let (name, kind) = wanted[at];
        if !is_column(&columns[at], name, kind) {
            return false;
        }
    }
    true
}

fn has_no_terms(alloc: Global, terms: &Terms) -> Result<bool, AllocError>
    ensures { IfOk result (λ none. IsTrue none ↔ (terms.now ≡ [])) }
{
    let lent = terms.lend(alloc)?;
    Ok(lent.roots.is_empty())
}

fn has_no_stamps(alloc: Global, stamps: &Stamps) -> Result<bool, AllocError>
    ensures { IfOk result (λ none. IsTrue none ↔ (stamps.now ≡ record { places = []; terms = []; formats = [] })) }
{
    let no_terms = has_no_terms(alloc, &stamps.terms)?;
    Ok(no_terms && stamps.places.is_empty() && stamps.formats.is_empty())
}

fn has_no_rules(table: &Table) -> bool
    ensures { IsTrue result ↔ (table.now
        ≡ record table.now { uniques = []; orders = []; references = []; computed = []; is_counted = false }) }
{
    table.uniques.is_empty()
        && table.orders.is_empty()
        && table.references.is_empty()
        && table.computed.is_empty()
        && !table.is_counted
}

fn is_first(places: &Items<usize>) -> bool
    ensures { IsTrue result ↔ (places.now ≡ 0 ∷ []) }
{
    places.as_slice() == [0].as_slice()
}

fn is_by_first(table: &Table) -> bool
    ensures { IsTrue result ↔ (table.now ≡ record table.now { key = Some 0; primary = 0 ∷ [] }) }
{
    table.key == Some(0) && is_first(&table.primary)
}

/// Whether it is a table by its INTEGER PRIMARY KEY in the first column, and nothing more.
fn is_plain(alloc: Global, table: &Table) -> Result<bool, AllocError>
    ensures { IfOk result (λ plain. IsTrue plain ↔ (table.now
        ≡ keyed table.now.name table.now.tree table.now.columns)) }
{
    let no_checks = has_no_terms(alloc, &table.checks)?;
    let no_stamps = has_no_stamps(alloc, &table.stamps)?;
    Ok(no_checks && no_stamps && has_no_rules(table) && is_by_first(table))
}

fn are_columns_after(columns: &[Column], id: &str, wanted: &[(&str, Kind)]) -> bool
    ensures { IsTrue result ↔ (columns.now ≡ id_column id.now ∷ map (λ w. value_column w.0.now w.1) wanted.now) }
{
    let Some((first, others)) = columns.split_first() else {
        return false;
    };
    is_id_column(first, id) && are_columns(others, wanted)
}

fn has_place(table: &Table, name: &str, tree: u32) -> bool
    ensures { IsTrue result ↔ (table.now ≡ record table.now { name = name.now; tree = tree }) }
{
    table.name.as_slice() == name.as_bytes() && table.tree == tree
}

/// A table by its name, its tree, the column of its key, and its other columns.
#[derive(Drop)]
struct TableShape<'a> {
    name: &'a str,
    tree: u32,
    id: &'a str,
    columns: &'a [(&'a str, Kind)],
}

impl TableShape<'_> {
    /// Whether a table is this one, and nothing more.
    fn is_of(&self, alloc: Global, table: &Table) -> Result<bool, AllocError>
        ensures { IfOk result (λ same. IsTrue same ↔ (table.now ≡ keyed self.now.name.now self.now.tree
            (id_column self.now.id.now ∷ map (λ w. value_column w.0.now w.1) self.now.columns.now))) }
    {
        let plain = is_plain(alloc, table)?;
        Ok(
            plain
                && has_place(table, self.name, self.tree)
                && are_columns_after(table.columns.as_slice(), self.id, self.columns),
        )
    }
}

fn is_spool_table(alloc: Global, table: &Table) -> Result<bool, AllocError>
    ensures { IfOk result (λ same. IsTrue same ↔ (table.now ≡ spool_table)) }
{
    let spool = TableShape {
        name: "spool",
        tree: 0,
        id: "version",
        columns: &[],
    };
    spool.is_of(alloc, table)
}

fn is_files_table(alloc: Global, table: &Table) -> Result<bool, AllocError>
    ensures { IfOk result (λ same. IsTrue same ↔ (table.now ≡ files_table)) }
{
    let columns = [
        ("customer", Kind::Text),
        ("key", Kind::Integer),
        ("kind", Kind::Text),
        ("job", Kind::Text),
        ("number", Kind::Integer),
        ("owner_node", Kind::Text),
        ("owner_user", Kind::Text),
        ("to_node", Kind::Text),
        ("to_user", Kind::Text),
        ("held", Kind::Integer),
        ("records", Kind::Integer),
        ("blocks", Kind::Integer),
        ("came", Kind::Integer),
    ];
    let files = TableShape {
        name: "files",
        tree: 1,
        id: "id",
        columns: &columns,
    };
    files.is_of(alloc, table)
}

fn is_records_table(alloc: Global, table: &Table) -> Result<bool, AllocError>
    ensures { IfOk result (λ same. IsTrue same ↔ (table.now ≡ records_table)) }
{
    let columns = [
        ("file", Kind::Integer),
        ("place", Kind::Integer),
        ("srcb", Kind::Integer),
        ("bytes", Kind::Blob),
    ];
    let records = TableShape {
        name: "records",
        tree: 2,
        id: "id",
        columns: &columns,
    };
    records.is_of(alloc, table)
}

fn are_spool_tables(alloc: Global, tables: &[Table]) -> Result<bool, AllocError>
    ensures { IfOk result (λ same. IsTrue same ↔ (tables.now ≡ spool_table ∷ files_table ∷ records_table ∷ [])) }
{
    let [spool, files, records] = tables else {
        return Ok(false);
    };
    Ok(
        is_spool_table(alloc, spool)?
            && is_files_table(alloc, files)?
            && is_records_table(alloc, records)?,
    )
}

/// Whether the database has a spool's tables and nothing else.
pub(crate) fn is_spool(alloc: Global, schema: &Schema) -> Result<bool, AllocError>
    ensures { IfOk result (λ same. IsTrue same ↔ (schema.now ≡ spool_schema)) }
{
    let tables = are_spool_tables(alloc, schema.tables.as_slice())?;
    Ok(tables && schema.indexes.is_empty() && schema.views.is_empty())
}

/// Whether the database has nothing yet.
pub(crate) fn is_empty(schema: &Schema) -> bool
    ensures { IsTrue result ↔ (schema.now ≡ no_tables) }
{
    schema.tables.is_empty() && schema.indexes.is_empty() && schema.views.is_empty()
}
