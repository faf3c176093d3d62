// What the definitions of settings rest on.
ghost use Rattle.std.specs.Cmp.Lexicographic.{slice_cmp};
ghost use Rattle.std.specs.List.Sorted.{IsStrictlySortedBy};
ghost use Rattle.std.specs.Ordering.{nat_cmp};
ghost use Rattle.toml.specs.View.{table_view};
ghost use Rattle.omit_rules.specs.Tables.{keys_of};

use toml::Table;

/// The keys of a table stand in the order of their bytes. So the first fault of a key is that of the least key.
pub fn keys_stand_in_order(table: &Table)
    ensures { IsStrictlySortedBy (slice_cmp nat_cmp) (keys_of (table_view table.now)) }
{
    let _keys = table.keys();
}
