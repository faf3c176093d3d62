// What holds of rows between calls.
ghost use Rattle.std.specs.Prelude.{◌≡◌, ◌++◌, ℕ, List};
ghost use Rattle.link_rows.specs.Unlinked.{IsInOneList, KeptByCut, KeptByPush, KeptByRelink, KeptBySplice, KeptByUnlink, StandsOnce};
ghost use Rattle.link_rows.specs.Values.{HasOneSequence, PushesValue, values_of};

use crate::Rows;

/// A row stands in one list at most, and there once.
pub fn a_row_stands_in_one_list<T>(rows: &Rows<T>)
    ensures one { IsInOneList rows.now.net }
    ensures once { StandsOnce rows.now.net }
{
    let _links = &rows.links;
}

/// A row that stands in no list keeps the two neighbours that it had, whatever is done to others. So it can be relinked after other
/// calls, as soon as these two stand side by side again.
pub fn an_unlinked_row_keeps_its_neighbours<T>(rows: &Rows<T>)
    ensures push { KeptByPush rows.now.net }
    ensures unlink { KeptByUnlink rows.now.net }
    ensures relink { KeptByRelink rows.now.net }
    ensures splice { KeptBySplice rows.now.net }
    ensures cut { KeptByCut rows.now.net }
{
    rows.links.are_sound();
}

/// Each list is a list of values: one sequence, which is that of its parts, and to which a push adds its value.
pub fn a_list_is_of_values<T>(rows: &Rows<T>)
    ensures one { HasOneSequence rows.now }
    ensures parts { (xs ys : List ℕ) → values_of rows.now (xs ++ ys) ≡ values_of rows.now xs
        ++ values_of rows.now ys }
    ensures pushed { (v : T) → PushesValue rows.now v }
{
    rows.links.are_sound();
}
