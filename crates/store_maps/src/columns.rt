//! How many columns the tables of a style have.
ghost use Rattle.std.specs.Prelude.{◌≡◌, ◌<◌, length};
ghost use Rattle.store_maps.specs.Rows.{columns_in};

use style_read::TableDef;

/// How many columns a table has.
pub fn columns_of(tables: &[TableDef], table: usize) -> u64
    requires { table < length tables.now }
    ensures columns { result ≡ columns_in tables.now table }
{
    tables[table].columns.as_slice().len() as u64
}
