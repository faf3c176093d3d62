// Steps on a buffer, and how they are taken back.
ghost use Rattle.std.specs.Prelude.{◌≡◌, ◌∷◌, []};
ghost use Rattle.section_buffer.specs.Buffers.{Leads};
ghost use Rattle.session_sections.specs.Held.{LinesKilled, back, flipped, unkilled_times};
ghost use Rattle.session_sections.specs.Sections.{without_lines};

use crate::kept::Kept;
use dired_text::Path;
use section_buffer::{Buffer, BufferEnd};

// Hides the section of a directory where it is shown, and shows it where it is hidden.
pub(crate) fn flip(buffer: &mut Buffer, dir: &Path) -> Result<(), BufferEnd>
    ensures { Leads (flipped dir.now buffer.old) result buffer.old buffer.new }
{
    match buffer.is_hidden(dir) {
        None => Err(BufferEnd::NotThere),
        Some(true) => buffer.show(dir),
        Some(false) => buffer.hide(dir),
    }
}

// Takes out each line of this path that is shown.
fn kill_path(buffer: &mut Buffer, path: &Path)
    ensures lines { buffer.new.sections ≡ without_lines (path.now ∷ []) buffer.old.sections }
    ensures kills { LinesKilled buffer.old buffer.new }
{
    while buffer.kill_line(path).is_ok() {}
}

// Takes out each line of these paths that is shown.
pub(crate) fn kill_paths(buffer: &mut Buffer, paths: &[Path])
    ensures lines { buffer.new.sections ≡ without_lines paths.now buffer.old.sections }
    ensures kills { LinesKilled buffer.old buffer.new }
{
    for path in paths {
        kill_path(buffer, path);
    }
}

// Puts the rows of the last so many kills back.
fn unkill_times(buffer: &mut Buffer, count: usize)
    ensures { buffer.new ≡ unkilled_times count buffer.old }
{
    for _ in 0..count {
        let _ = buffer.unkill();
    }
}

// Takes a change back.
pub(crate) fn take_back(buffer: &mut Buffer, change: &Kept)
    ensures { buffer.new ≡ back change.now buffer.old }
{
    match change {
        Kept::Kills(count) => unkill_times(buffer, *count),
        Kept::Turning(dir) => {
            let _ = flip(buffer, dir);
        }
    }
}
