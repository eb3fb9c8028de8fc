//! Whether the schema of a database is that of the table.
ghost use Rattle.std.specs.Prelude.{◌≡◌, ◌↔◌, [], ◌∷◌, IsTrue, Some, false};
ghost use Rattle.example_table.specs.Stock.{column_of, stock, HasStockAlone, HasStockBound, IsBound, IsOfStock, IsPlainIndex, IsReady, stock_in};

use sqlite_schema::schema::{Column, Index, Kind, Schema, Table, View};
use sqlite_value::keys::{Collation, Order};
use sqlite_value::value::Value;

/// Whether a column of a strict table has this name, type and rule, and no default.
fn is_column(column: &Column, name: &[u8], kind: Kind, not_null: bool) -> bool
    ensures { IsTrue result ↔ (column.now ≡ column_of name.now kind not_null) }
{
    column.name.as_slice() == name
        && column.kind == kind
        && column.is_strict
        && column.not_null == not_null
        && matches!(column.default, Value::Null)
        && column.collation == Collation::Binary
}

/// Whether these are the columns of the table.
fn has_columns(columns: &[Column]) -> bool
    ensures { IsTrue result ↔ (columns.now ≡ stock.columns) }
{
    let [id, code, name, quantity, price, page] = columns else {
        return false;
    };
    is_column(id, b"id", Kind::Integer, false)
        && is_column(code, b"code", Kind::Text, true)
        && is_column(name, b"name", Kind::Text, true)
        && is_column(quantity, b"quantity", Kind::Integer, true)
        && is_column(price, b"price", Kind::Integer, true)
        && is_column(page, b"page", Kind::Text, false)
}

/// Whether these are the place of the code.
fn are_of_code(places: &[usize]) -> bool
    ensures { IsTrue result ↔ (places.now ≡ 2 ∷ []) }
{
    places == [2].as_slice()
}

/// Whether the code is unique, and nothing else.
fn has_unique_code(table: &Table) -> bool
    ensures { IsTrue result ↔ (table.now.uniques ≡ stock.uniques) }
{
    let [places] = table.uniques.as_slice() else {
        return false;
    };
    are_of_code(places.as_slice())
}

/// Whether these are the orders of one index that ascends by its bytes.
fn has_plain_order(orders: &[Order]) -> bool
    ensures { IsTrue result ↔ (orders.now ≡ stock.orders) }
{
    let [order] = orders else {
        return false;
    };
    order.digits == 0
}

/// Whether a table has the keys of the table.
fn has_keys(table: &Table) -> bool
    ensures { IsTrue result ↔ ((table.now.key ≡ Some 0) × (table.now.primary ≡ 0 ∷ [])
        × (table.now.uniques ≡ stock.uniques) × (table.now.orders ≡ stock.orders)) }
{
    table.key == Some(0)
        && table.primary.as_slice() == [0].as_slice()
        && has_unique_code(table)
        && has_plain_order(table.orders.as_slice())
}

/// Whether a table has no rules beside those of its columns and keys.
fn is_plain(table: &Table) -> bool
    ensures { IsTrue result ↔ ((table.now.checks ≡ []) × (table.now.references ≡ []) × (table.now.computed ≡ [])
        × (table.now.stamps ≡ stock.stamps) × (table.now.is_counted ≡ false)) }
{
    table.checks.roots.is_empty()
        && table.references.is_empty()
        && table.computed.is_empty()
        && table.stamps.places.is_empty()
        && table.stamps.terms.roots.is_empty()
        && table.stamps.formats.is_empty()
        && !table.is_counted
}

/// Whether a table is the table, in whichever tree.
fn is_stock(table: &Table) -> bool
    ensures { IsTrue result ↔ (table.now ≡ stock_in table.now.tree) }
{
    table.name.as_slice() == b"stock".as_slice()
        && has_columns(table.columns.as_slice())
        && has_keys(table)
        && is_plain(table)
}

/// Whether a database has the table, and no other table or view.
fn has_stock_alone(schema: &Schema) -> bool
    ensures { IsTrue result ↔ HasStockAlone schema.now }
{
    let [table] = schema.tables.as_slice() else {
        return false;
    };
    is_stock(table) && schema.views.is_empty()
}

/// Whether each row that is valid can stand in an index: it is not unique, or SQLite made it of the codes.
fn is_plain_index(index: &Index) -> bool
    ensures { IsTrue result ↔ IsPlainIndex index.now }
{
    !index.is_unique || index.name.as_slice() == b"sqlite_autoindex_stock_1".as_slice()
}

/// Whether something belongs to the table and is kept as it is.
fn is_of_stock(view: &View) -> bool
    ensures { IsTrue result ↔ IsOfStock view.now }
{
    match &view.foreign {
        Some(owner) => owner.as_slice() == b"stock".as_slice(),
        None => false,
    }
}

/// Whether a database has the table with something on it that is not understood, and nothing else.
fn has_stock_bound(schema: &Schema) -> bool
    ensures { IsTrue result ↔ HasStockBound schema.now }
{
    schema.tables.is_empty()
        && !schema.views.is_empty()
        && schema.views.as_slice().iter().all(is_of_stock)
}

/// Whether a database has the table alone, and each row that is valid can be put there.
pub(crate) fn is_ready(schema: &Schema) -> bool
    ensures { IsTrue result ↔ IsReady schema.now }
{
    has_stock_alone(schema) && schema.indexes.as_slice().iter().all(is_plain_index)
}

/// Whether a database has the table, and something on it rules out rows, or is not understood.
pub(crate) fn is_bound(schema: &Schema) -> bool
    ensures { IsTrue result ↔ IsBound schema.now }
{
    has_stock_bound(schema) || (has_stock_alone(schema) && !is_ready(schema))
}
