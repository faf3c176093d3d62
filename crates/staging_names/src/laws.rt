// Laws of names and of what is foreign.
ghost use Rattle.staging_names.specs.Laws.{InOrderIsNotForeign, MarkersHavePlaces, NamesAreRead, ReadsAreSpelled};

/// Names are read as they are spelled, and only so.
pub fn names_are_read()
    ensures read { NamesAreRead }
    ensures spelled { ReadsAreSpelled }
{}

/// Nothing is foreign exactly where at most one journal stands, each name is in its row and of its kind, and at most one marker stands,
/// and one beside `plan`. A marker that counts more steps than there are has a place.
pub fn what_is_in_order_is_not_foreign()
    ensures order { InOrderIsNotForeign }
    ensures beyond { MarkersHavePlaces }
{}
