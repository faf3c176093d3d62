// A name in a directory.
ghost use Rattle.std.specs.Prelude.{◌≡◌, IfOk, IsSome, IfSome, true, ◌↔◌, IsTrue, List, ℕ, nat_eq};
ghost use Rattle.std.specs.Ordering.{nat_cmp, as_partial_cmp};
ghost use Rattle.std.specs.Cmp.Lexicographic.{pointwise, slice_cmp};
ghost use Rattle.std.specs.Cmp.{partial_order_from_own_ties};
ghost use Rattle.std.specs.Cmp.Rules.{comparing};
ghost use Rattle.std.proofs.Common.{rules};
ghost use Rattle.std.specs.List.{list_all};
ghost use Rattle.std.specs.Str.{is_utf8};
ghost use Rattle.dired_text.specs.Paths.{is_name, is_name_byte, is_dots as is_dots_text};

use crate::Memory;
use std::alloc::Global;
use std::cmp::Ordering;
use std::marker::Model;

/// The name of an entry in a directory: 1 to 255 bytes of UTF-8 without `/` and NUL, and neither `.` nor `..`
/// (POSIX, "Filename"). Names are ordered by their bytes.
#[derive(Debug, Drop)]
pub struct Name {
    text: String,
}

impl Model for Name {
    ghost use Rattle.std.specs.Prelude.{List, ℕ, string_bytes, IsTrue};
    ghost use Rattle.dired_text.specs.Paths.{is_name};

    ghost Value = { List ℕ };

    ghost view = { λ n. string_bytes n.text };

    ghost invariant = { λ n. IsTrue (is_name (string_bytes n.text)) };
}

impl Name {
    /// The name that the text is, or None where it is no name.
    pub fn new(alloc: Global, text: &str) -> Result<Option<Self>, Memory>
        ensures name { IfOk result (λ found. IfSome found (λ n. n ≡ text.now)) }
        ensures some { IfOk result (λ found. IsSome found ↔ IsTrue (is_name text.now)) }
    {
        if !is_name_text(text) {
            return Ok(None);
        }
        Ok(Some(Name {
            text: String::from_str(alloc, text)?,
        }))
    }

    /// The name itself.
    pub fn as_str(&self) -> &str
        ensures value { result.now ≡ self.now }
        ensures name { IsTrue (is_name self.now) }
        ensures utf8 { IsTrue (is_utf8 self.now) }
    {
        &self.text
    }

    /// An equal name, in memory of its own.
    pub fn copy(&self) -> Result<Self, Memory>
        ensures { IfOk result (λ n. n ≡ self.now) }
    {
        Ok(Name {
            text: self.text.clone()?,
        })
    }
}

/// Whether a text is a name, by what [`Name`] says.
pub fn is_name_text(text: &str) -> bool
    ensures { result ≡ is_name text.now }
{
    let bytes = text.as_bytes();
    let has_length = 1 <= bytes.len() && bytes.len() <= 255;
    has_length && has_name_bytes(bytes) && !is_dots(text)
}

// Whether each byte may stand in a name.
fn has_name_bytes(bytes: &[u8]) -> bool
    ensures { result ≡ list_all is_name_byte bytes.now }
{
    bytes.iter().all(|b| *b != b'/' && *b != 0)
}

// Whether a text is the name of a directory itself or of the one above it.
fn is_dots(text: &str) -> bool
    ensures { result ≡ is_dots_text text.now }
{
    text == "." || text == ".."
}

impl PartialEq for Name {
    ghost eq = { pointwise nat_eq };

    ghost laws = { Prim.search (comparing, rules) };

    fn eq(&self, other: &Name) -> bool {
        self.as_str() == other.as_str()
    }
}

impl Eq for Name {
    ghost laws = { Prim.search (comparing, rules) };
}

impl PartialOrd for Name {
    ghost partial_cmp = { as_partial_cmp (slice_cmp nat_cmp) };

    ghost laws = { partial_order_from_own_ties (Prim.search (comparing, rules)) (Prim.search (comparing, rules)) };

    fn partial_cmp(&self, other: &Name) -> Option<Ordering> {
        Some(self.cmp(other))
    }
}

impl Ord for Name {
    ghost cmp = { slice_cmp nat_cmp };

    ghost total = { Prim.search (comparing, rules) };

    ghost matches_partial_cmp = { Prim.search (comparing, rules) };

    ghost matches_eq = { Prim.search (comparing, rules) };

    fn cmp(&self, other: &Name) -> Ordering {
        self.as_str().cmp(other.as_str())
    }
}
