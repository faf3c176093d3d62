// What holds of changes that were checked.
ghost use Rattle.edit_check.specs.StandFor.{CanBeMadeWhereItStands, CountedWhereItStands, IsChecked, ListedWhereItStands};

use crate::Checked;

/// A `Checked` stands for each tree that has its findings: there the changes can be made, and the counts, the victims, the
/// missing directories and the modes that change are theirs.
pub fn changes_can_be_made_where_it_stands(checked: &Checked)
    ensures made { CanBeMadeWhereItStands checked.now }
    ensures counted { CountedWhereItStands checked.now }
    ensures listed { ListedWhereItStands checked.now }
{
    let _changes = &checked.changes;
}

/// What holds of a `Checked` whatever the tree told: its changes can be asked for, what was found refuses nothing of them and gives
/// their counts, above what was found to stand there are directories, a directory was found at the root where there is a new path,
/// and no mode that was found is above 0o7777.
pub fn what_is_checked(checked: &Checked)
    ensures { IsChecked checked.now }
{
    let _changes = &checked.changes;
}
