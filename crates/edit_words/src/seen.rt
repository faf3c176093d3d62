// What stands at a path.

use dired_text::Text;

/// What stands at a path, but for the bytes of a file.
#[derive(Debug, PartialEq, Eq, Drop)]
pub enum Seen {
    Dir { mode: u16 },
    Link { target: Text },
    File { number: u64, mode: u16 },
}
