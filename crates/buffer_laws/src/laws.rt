// Laws over the definitions alone.
ghost use Rattle.buffer_laws.specs.Laws.{BuffersAreRead, ReadAreBuffers, SectionsAreOne, TextsAreOne, EditsAreDifferences, DifferencesAreEdits};

/// A text is read as a buffer exactly where it is one: the first line, and sections with an empty line between two, each of its header
/// and, where it isn't hidden, its total and a line for each file. What is read are the lines of its sections.
pub fn buffers_are_their_sections()
    ensures read { BuffersAreRead }
    ensures only { ReadAreBuffers }
{}

/// A text is a buffer of one list of sections, with all fields of its lines. The texts of one list of sections differ by no more than the
/// newline behind the last line.
pub fn sections_and_texts_are_one()
    ensures sections { SectionsAreOne }
    ensures texts { TextsAreOne }
{}

/// What an edited text of a buffer asks for are, line by line, the differences between the fields that the lines show: path, mode and
/// target. All else is equal, the kind as well, and no path is shown twice. Exactly then it isn't refused.
pub fn edits_are_differences()
    ensures differences { EditsAreDifferences }
    ensures taken { DifferencesAreEdits }
{}
