// A section as it is handed out.
ghost use Rattle.std.specs.Prelude.{◌≡◌};

use dired_text::Path;
use listing_text::Line;
use std::marker::Model;

/// The lines of a section, seen as their list.
#[derive(Debug, Drop)]
pub struct Lines {
    lines: Vec<Line>,
}

impl Model for Lines {
    ghost use Rattle.std.specs.Prelude.{List};
    ghost use Rattle.listing_text.specs.declared.line.Line.{Line};

    ghost Value = { List Line };

    ghost view = { λ l. l.lines.items };
}

impl Lines {
    /// Takes a `Vec` over, without memory.
    pub fn from_vec(lines: Vec<Line>) -> Self
        ensures { result ≡ lines.items }
    {
        Lines { lines }
    }

    /// Hands the lines over, without memory.
    pub fn into_vec(self) -> Vec<Line>
        ensures { result.items ≡ self }
    {
        self.lines
    }

    /// The lines themselves.
    pub fn as_slice(&self) -> &[Line]
        ensures { result.now ≡ self.now }
    {
        &self.lines
    }
}

/// A section of a buffer: a directory, whether its lines are hidden, and its lines.
#[derive(Debug, Drop)]
pub struct Section {
    pub dir: Path,
    pub hidden: bool,
    pub lines: Lines,
}
