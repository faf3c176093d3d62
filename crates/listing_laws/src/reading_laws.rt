// What is written of a listing is read back.
ghost use Rattle.listing_laws.specs.ReadLaws.{NamesResolve, EntriesComeBack, TotalsComeBack, PathsResolve, HeadersComeBack};

/// A name names itself from every directory.
pub fn names_resolve()
    ensures { NamesResolve }
{}

/// The text of a path names that path from the root.
pub fn paths_resolve()
    ensures { PathsResolve }
{}

/// The line of a file, as a listing shows it, is read by a buffer as the entry of that file.
pub fn entries_come_back()
    ensures { EntriesComeBack }
{}

/// The total of a listing is read as one.
pub fn totals_come_back()
    ensures { TotalsComeBack }
{}

/// The header of a directory, as a listing shows it, is read by a buffer as the header of that directory.
pub fn headers_come_back()
    ensures { HeadersComeBack }
{}
