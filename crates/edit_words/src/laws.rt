// What holds of the words that the contracts cite.
ghost use Rattle.edit_words.specs.Laws.{FaultOfFirst, FaultOfLeast, LineOfLeast, NoLine, TakenAlone, WellFormedAlone};

/// The faults that no confirmation changes are those of changes that aren't well formed.
pub fn well_formed_where_no_fault_is_found()
    ensures { WellFormedAlone }
{}

/// The changes of which nothing is refused are those that can be made: they are well formed, all that would be replaced
/// is confirmed, and the bytes of their paths are not too many.
pub fn taken_where_nothing_is_refused()
    ensures { TakenAlone }
{}

/// The fault that is found is that of the first row that has one, and where lines rise no row of a lesser line has one.
/// The line of the first row that passes is then the least line of one that does.
pub fn the_first_line_is_the_least()
    ensures first { FaultOfFirst }
    ensures least { FaultOfLeast }
    ensures line { LineOfLeast }
    ensures none { NoLine }
{}
