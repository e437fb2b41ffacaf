//! Whether a schema is that of a store.
ghost use Rattle.std.specs.Prelude.{◌≡◌, ◌↔◌, true, [], ◌∷◌, IsTrue, Some};
ghost use Rattle.sqlite.specs.declared.types.Value.TheVariants.{Null};
ghost use Rattle.sqlite.specs.Collation.TheVariants.{Binary};
ghost use Rattle.scene_store.specs.Store.{batch_table, no_schema, store_schema, IsPlainTable};

use sqlite_schema::schema::{Column, Kind, Schema, Table};
use sqlite_value::keys::Collation;
use sqlite_value::value::Value;

/// Whether the database has nothing in it.
pub(crate) fn is_blank(schema: &Schema) -> bool
    ensures { IsTrue result ↔ (schema.now ≡ no_schema) }
{
    schema.tables.is_empty() && schema.indexes.is_empty() && schema.views.is_empty()
}

/// Whether a value is NULL.
fn is_null(value: &Value) -> bool
    ensures { IsTrue result ↔ (value.now ≡ Null) }
{
    match value {
        Value::Null => true,
        _ => false,
    }
}

/// Whether a column is just this one.
fn is_column(column: &Column, name: &[u8], kind: Kind, not_null: bool) -> bool
    ensures { IsTrue result ↔ (column.now ≡ record {
      name = name.now;
      kind = kind;
      is_strict = true;
      not_null = not_null;
      default = Null;
      collation = Binary;
    }) }
{
    column.name.as_slice() == name
        && column.kind == kind
        && column.is_strict
        && column.not_null == not_null
        && is_null(&column.default)
        && column.collation == Collation::Binary
}

/// Whether the columns are those of a store.
fn are_columns(columns: &[Column]) -> bool
    ensures { IsTrue result ↔ (columns.now ≡ batch_table.columns) }
{
    columns.len() == 2
        && is_column(&columns[0], b"number", Kind::Integer, false)
        && is_column(&columns[1], b"lines", Kind::Blob, true)
}

/// Whether these are one place, the first.
fn is_first(places: &[usize]) -> bool
    ensures { IsTrue result ↔ (places.now ≡ 0 ∷ []) }
{
    places.len() == 1 && places[0] == 0
}

/// Whether a table has no rule but its key and its columns.
fn is_plain(table: &Table) -> bool
    ensures { IsTrue result ↔ IsPlainTable table.now }
{
    table.uniques.is_empty()
        && table.orders.is_empty()
        && table.checks.roots.is_empty()
        && table.references.is_empty()
        && table.computed.is_empty()
        && table.stamps.places.is_empty()
        && table.stamps.terms.roots.is_empty()
        && table.stamps.formats.is_empty()
}

/// Whether a table is that of a store.
fn is_batch(table: &Table) -> bool
    ensures { IsTrue result ↔ (table.now ≡ batch_table) }
{
    table.name.as_slice() == b"batch".as_slice()
        && table.tree == 0
        && are_columns(table.columns.as_slice())
        && table.key == Some(0)
        && is_first(table.primary.as_slice())
        && is_plain(table)
        && !table.is_counted
}

/// Whether the schema is just that of a store.
pub(crate) fn is_store(schema: &Schema) -> bool
    ensures { IsTrue result ↔ (schema.now ≡ store_schema) }
{
    schema.indexes.is_empty()
        && schema.views.is_empty()
        && schema.tables.len() == 1
        && is_batch(&schema.tables.as_slice()[0])
}
