// Laws over the definitions alone.
ghost use Rattle.edit_requests.specs.RequestLaws.{EditsCanBeAsked, EmptiedAreOfLines};

/// The edits of a buffer that was read can be asked of a check, where they are no more than a commit may have: their lines
/// rise, their sources differ, no path is the root, and each asks for something new and lawful.
pub fn edits_can_be_asked()
    ensures { EditsCanBeAsked }
{}

/// A path whose name was emptied is shown by an entry's line of the buffer, and isn't the root.
pub fn emptied_names_are_of_lines()
    ensures { EmptiedAreOfLines }
{}
