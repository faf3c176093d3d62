// What the definitions of a buffer have to do with those of a listing.
ghost use Rattle.listing_text.specs.Reading.{line_of};
ghost use Rattle.wdired_buffer.specs.Buffer.{entry_of};
ghost use Rattle.wdired_buffer.specs.EntryLaws.{IsReadAs, AllOk, AsksNothing};

use dired_text::Path;

/// The entries of a buffer are the lines of a listing whose names name paths from the section's directory, with their
/// kinds, modes and targets. Every other line has the bad field that it has in a listing, or a bad name.
pub fn entries_are_lines(number: u32, dir: &Path, text: &[u8])
    ensures { IsReadAs number dir.now text.now (line_of text.now)
        (entry_of number dir.now text.now) }
{}

/// The line of an entry, as it was read, asks for nothing by its own fields: its name names the entry's path, and its mode
/// and target are those that it shows.
pub fn untouched_lines_ask_nothing(number: u32, dir: &Path, text: &[u8])
    ensures { AllOk (AsksNothing number dir.now) (entry_of number dir.now text.now) }
{}
