// Laws over the definitions alone.
ghost use Rattle.listing_laws.specs.Printed.{PrintedIsRead};

/// The text of a listing is read as a buffer, whose entries are the listed paths as the tree shows them, section by section
/// in the order of the paths, the lines of a section in the order of the listing.
pub fn printed_listings_are_read()
    ensures { PrintedIsRead }
{}
