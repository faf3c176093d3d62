// The names on a buffer's lines, and its headers and totals.
ghost use Rattle.std.specs.Prelude.{◌≡◌, IfOk, option_map};
ghost use Rattle.std.specs.List.{list_all};
ghost use Rattle.listing_text.specs.Numbers.{is_digit};
ghost use Rattle.wdired_buffer.specs.Headers.{named, dir_named, header_in as header_in_text, is_total as is_total_text};

use dired_text::{Memory, NameError, Path, resolve};
use listing_text::{LineFault, read_name};
use std::alloc::Global;

/// The path that a shown name names from a directory, where it is escaped UTF-8 and names one.
#[tactic(auto, unfolding(crate::specs::Headers::named))]
pub fn read_path(alloc: Global, dir: &Path, shown: &[u8]) -> Result<Option<Path>, Memory>
    ensures { IfOk result (λ path. path ≡ named dir.now shown.now) }
{
    match read_name(alloc, shown.len(), shown, shown) {
        Ok(name) => match resolve(alloc, dir, name.as_str()) {
            Ok(path) => Ok(Some(path)),
            Err(NameError::Memory) => Err(Memory),
            Err(_) => Ok(None),
        },
        Err(LineFault::Memory) => Err(Memory),
        Err(LineFault::Bad { .. }) => Ok(None),
    }
}

/// The directory that the path in a header names. What resolves to the root is the root.
#[tactic(auto, unfolding(crate::specs::Headers::dir_named))]
pub fn read_dir(alloc: Global, shown: &[u8]) -> Result<Option<Path>, Memory>
    ensures { IfOk result (λ dir. dir ≡ dir_named shown.now) }
{
    match read_name(alloc, shown.len(), shown, shown) {
        Ok(path) => match resolve(alloc, &Path::root(alloc), path.as_str()) {
            Ok(path) => Ok(Some(path)),
            Err(NameError::Root) => Ok(Some(Path::root(alloc))),
            Err(NameError::Memory) => Err(Memory),
            Err(_) => Ok(None),
        },
        Err(LineFault::Memory) => Err(Memory),
        Err(LineFault::Bad { .. }) => Ok(None),
    }
}

/// Whether a header hides its section, and its path: what stands between two spaces and `: ...` or `:`.
#[tactic(auto, unfolding(crate::specs::Headers::header_in))]
pub fn header_in(text: &[u8]) -> Option<(bool, &[u8])>
    ensures { option_map (λ t. (t.0, t.1.now)) result ≡ header_in_text text.now }
{
    let rest = text.strip_prefix(b"  ")?;
    match rest.strip_suffix(b": ...") {
        Some(path) => Some((true, path)),
        None => Some((false, rest.strip_suffix(b":")?)),
    }
}

/// Whether a text is the total of a section: a number of 1 to 18 digits.
#[tactic(auto, unfolding(crate::specs::Headers::is_total))]
pub fn is_total(text: &[u8]) -> bool
    ensures { result ≡ is_total_text text.now }
{
    match text.strip_prefix(b"  total ") {
        Some(digits) => 1 <= digits.len() && digits.len() <= 18 && has_digits(digits),
        None => false,
    }
}

// Whether each byte is a digit.
fn has_digits(text: &[u8]) -> bool
    ensures { result ≡ list_all is_digit text.now }
{
    text.iter().all(|b| b'0' <= *b && *b <= b'9')
}
