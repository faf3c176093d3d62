// What undoing leaves.
ghost use Rattle.std.specs.Prelude.{◌≡◌};
ghost use Rattle.session_view.specs.Views.{View, taken_back, viewing};

use crate::UndoView;

/// `undo` behind any command that may be undone leaves what was seen before it, and what could be undone then.
pub fn undo_takes_a_command_back(view: &UndoView)
    ensures { (v : View) → taken_back (viewing v view.now) ≡ view.now }
{}
