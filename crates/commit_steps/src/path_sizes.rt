// The bytes of the paths of a step.
ghost use Rattle.std.specs.Prelude.{◌≡◌, ◌*◌, ◌≤◌, length};
ghost use Rattle.dired_text.specs.Paths.{max_path_bytes, path_bytes as path_bytes_of, slashed};
ghost use Rattle.commit_steps.specs.Steps.{step_bytes};

use crate::Step;
use dired_text::{Name, Path};

impl Step {
    /// The bytes of its paths together, their slashes counted.
    pub fn path_bytes(&self) -> usize
        ensures bytes { result ≡ step_bytes self.now }
        ensures bound { result ≤ 2 * max_path_bytes }
    {
        match self {
            Step::MakeDir(path) => path_bytes(path),
            Step::Rename(from, to) => path_bytes(from) + path_bytes(to),
            Step::Mode(path, _, _) => path_bytes(path),
        }
    }
}

// The bytes of a path, its slashes counted.
fn path_bytes(path: &Path) -> usize
    ensures bytes { result ≡ path_bytes_of path.now }
    ensures short { result ≤ max_path_bytes }
{
    match path.names() {
        [] => 0,
        [first, rest @ ..] => first.as_str().len() + slashed_bytes(rest),
    }
}

// The bytes of names, each behind a slash.
fn slashed_bytes(names: &[Name]) -> usize
    requires { length (slashed names.now) ≤ max_path_bytes }
    ensures { result ≡ length (slashed names.now) }
{
    let mut bytes = 0;
    for name in names {
        bytes += 1 + name.as_str().len();
    }
    bytes
}
