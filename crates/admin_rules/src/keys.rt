//! A key of a table.
ghost use Rattle.std.specs.Prelude.{◌≡◌, option_map};
ghost use Rattle.toml.specs.Data.{get_member};
ghost use Rattle.toml.specs.View.{view, table_view};
ghost use Rattle.admin_rules.specs.Keys.{has_no_keys as has_no_keys_in};

use toml::{Table, Value};

/// The value at a key.
pub fn value_at<'a>(table: &'a Table, key: &str) -> Option<&'a Value>
    ensures { option_map (λ value. view value.now) result ≡ get_member key.now (table_view table.now) }
{
    table.get(key)
}

/// Whether the table has no key.
pub fn has_no_keys(table: &Table) -> bool
    ensures { result ≡ has_no_keys_in (table_view table.now) }
{
    table.is_empty()
}
