// The lines of a listing.
ghost use Rattle.listing_laws.specs.LineLaws.{LinesSplit, EscapedOneLine, HeaderOneLine, TotalOneLine, LineOneLine, SectionLines, ListingLines};

/// A text on one line and a newline, in front of a text, are the first of its lines.
pub fn lines_split()
    ensures { LinesSplit }
{}

/// What is escaped is on one line, and so are a section's header, its total and the line of a file.
pub fn texts_on_one_line()
    ensures escaped { EscapedOneLine }
    ensures header { HeaderOneLine }
    ensures total { TotalOneLine }
    ensures line { LineOneLine }
{}

/// The lines of a section are its header, its total and the lines of its files. Those of a listing are its title and the
/// lines of its sections, with an empty one between two.
pub fn listings_are_lines()
    ensures section { SectionLines }
    ensures listing { ListingLines }
{}
