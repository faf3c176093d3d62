// Paths from the root of the tree.
ghost use Rattle.std.specs.Prelude.{◌≡◌, ◌↔◌, ◌≤◌, [], ◌∷◌, ◌++◌, IfOk, OnOk, IfSome, IsSome, IsTrue, length, nat_eq, nat_le, ◌+◌, if◌then◌else◌, Some, None};
ghost use Rattle.std.specs.Option.{option_map};
ghost use Rattle.std.specs.List.{join_with_byte};
ghost use Rattle.std.specs.Ordering.{nat_cmp, as_partial_cmp};
ghost use Rattle.std.specs.Cmp.Lexicographic.{pointwise, slice_cmp, lists_ties};
ghost use Rattle.std.specs.Cmp.{partial_order_from_own_ties, unsigned_ties};
ghost use Rattle.std.specs.Cmp.Rules.{comparing};
ghost use Rattle.std.proofs.Common.{rules};
ghost use Rattle.std.specs.String.{string_bytes};
ghost use Rattle.dired_text.specs.Paths.{AreNames, joined, slashed, path_bytes, max_path_bytes, path_cmp, rest_below as rest_below_of};

use crate::{Memory, Name, Text};
use std::alloc::Global;
use std::cmp::Ordering;
use std::marker::Model;

/// The most bytes that a path may have, its slashes counted.
pub const MAX_PATH_BYTES: usize = 4095;

/// A path from the root of the tree: its names. The root has none. Joined by `/`, the names have at most 4,095 bytes
/// (POSIX, "Pathname", PATH_MAX). Paths are ordered as lists of names, names by bytes.
#[derive(Debug, Drop)]
pub struct Path {
    names: Vec<Name>,
}

impl Model for Path {
    ghost use Rattle.std.specs.Prelude.{List, ℕ, ◌≤◌};
    ghost use Rattle.dired_text.specs.Paths.{AreNames, path_bytes, max_path_bytes};

    ghost Value = { List (List ℕ) };

    ghost view = { λ p. p.names.items };

    ghost invariant = { λ p. (path_bytes p.names.items ≤ max_path_bytes) × AreNames p.names.items };
}

impl Path {
    /// The root.
    pub fn root(alloc: Global) -> Self
        ensures { result ≡ [] }
    {
        Path {
            names: Vec::new(alloc),
        }
    }

    /// The path of these names, or None where joined by `/` they have more than 4,095 bytes.
    pub fn join(alloc: Global, names: &[Name]) -> Result<Option<Self>, Memory>
        ensures path { IfOk result (λ found. IfSome found (λ p. p ≡ names.now)) }
        ensures some { IfOk result (λ found. IsSome found ↔
            (path_bytes names.now ≤ max_path_bytes)) }
    {
        if !is_short(names) {
            return Ok(None);
        }
        Ok(Some(Path {
            names: copy_names(alloc, names)?,
        }))
    }

    // The path of these names, or None where joined by `/` they have more than 4,095 bytes. Takes no memory.
    pub(crate) fn from_names(names: Vec<Name>) -> Option<Self>
        ensures { result ≡ (if nat_le (path_bytes names.items) max_path_bytes then Some names.items
            else None) }
    {
        if !is_short(&names) {
            return None;
        }
        Some(Path { names })
    }

    /// The names of the path, from the root down.
    pub fn names(&self) -> &[Name]
        ensures names { result.now ≡ self.now }
        ensures short { path_bytes self.now ≤ max_path_bytes }
        ensures lawful { AreNames self.now }
    {
        &self.names
    }

    /// The path of this name in the directory, or None where it would have more than 4,095 bytes.
    pub fn child(&self, name: &Name) -> Result<Option<Self>, Memory>
        ensures { IfOk result (λ found. found ≡
            (if nat_le (path_bytes (self.now ++ name.now ∷ [])) max_path_bytes
            then Some (self.now ++ name.now ∷ []) else None)) }
    {
        let mut names = copy_names(*self.names.allocator(), &self.names)?;
        names.push(name.copy()?)?;
        Ok(Self::from_names(names))
    }

    /// The names joined by `/`, which for the root is the empty text.
    pub fn text(&self) -> Result<Text, Memory>
        ensures { IfOk result (λ t. t ≡ joined self.now) }
    {
        let mut text = String::new(*self.names.allocator());
        if let [first, rest @ ..] = self.names() {
            text.push_str(first.as_str())?;
            push_names(&mut text, rest)?;
        }
        Ok(Text::from_string(text))
    }

    /// An equal path, in memory of its own.
    pub fn copy(&self) -> Result<Self, Memory>
        ensures { IfOk result (λ p. p ≡ self.now) }
    {
        Ok(Path {
            names: copy_names(*self.names.allocator(), &self.names)?,
        })
    }
}

// Pushes names, each behind a slash.
fn push_names(text: &mut String, names: &[Name]) -> Result<(), Memory>
    ensures { OnOk result (string_bytes text.new ≡ string_bytes text.old ++ slashed names.now) }
{
    for name in names {
        text.push_str("/")?;
        text.push_str(name.as_str())?;
    }
    Ok(())
}

// Copies names.
pub(crate) fn copy_names(alloc: Global, names: &[Name]) -> Result<Vec<Name>, Memory>
    ensures { IfOk result (λ v. v.items ≡ names.now) }
{
    let mut all = Vec::with_capacity(alloc, names.len())?;
    for name in names {
        all.push(name.copy()?)?;
    }
    Ok(all)
}

// Whether the names, joined by `/`, have at most 4,095 bytes.
fn is_short(names: &[Name]) -> bool
    ensures short { IsTrue result ↔ (path_bytes names.now ≤ max_path_bytes) }
    ensures lawful { IsTrue result → AreNames names.now }
{
    match names {
        [] => true,
        [first, rest @ ..] => fits(first.as_str().len(), rest),
    }
}

// Whether so many bytes and the names, each behind a slash, are at most 4,095 bytes.
fn fits(bytes: usize, names: &[Name]) -> bool
    ensures short { IsTrue result ↔ (bytes + length (slashed names.now) ≤ max_path_bytes) }
    ensures lawful { IsTrue result → AreNames names.now }
{
    if bytes > MAX_PATH_BYTES {
        return false;
    }
    match names {
        [] => true,
        [name, rest @ ..] => fits(bytes + 1 + name.as_str().len(), rest),
    }
}

/// What is left of `path` behind `front`, or None where it is neither `front` nor below it.
pub fn rest_below<'a>(front: &[Name], path: &'a [Name]) -> Option<&'a [Name]>
    ensures { option_map (λ r. r.now) result ≡ rest_below_of front.now path.now }
{
    match front {
        [] => Some(path),
        [first, front_rest @ ..] => match path {
            [] => None,
            [name, path_rest @ ..] => {
                if first.as_str() == name.as_str() {
                    rest_below(front_rest, path_rest)
                } else {
                    None
                }
            }
        },
    }
}

impl PartialEq for Path {
    ghost eq = { pointwise (pointwise nat_eq) };

    ghost laws = { Prim.search (comparing, rules) };

    fn eq(&self, other: &Path) -> bool {
        self.names.as_slice() == other.names.as_slice()
    }
}

impl Eq for Path {
    ghost laws = { Prim.search (comparing, rules) };
}

impl PartialOrd for Path {
    ghost partial_cmp = { as_partial_cmp path_cmp };

    ghost laws = { partial_order_from_own_ties (Prim.search (comparing, rules)) (lists_ties (slice_cmp nat_cmp) (lists_ties nat_cmp unsigned_ties)) };

    fn partial_cmp(&self, other: &Path) -> Option<Ordering> {
        Some(self.cmp(other))
    }
}

impl Ord for Path {
    ghost cmp = { path_cmp };

    ghost total = { Prim.search (comparing, rules) };

    ghost matches_partial_cmp = { Prim.search (comparing, rules) };

    ghost matches_eq = { lists_ties (slice_cmp nat_cmp) (lists_ties nat_cmp unsigned_ties) };

    fn cmp(&self, other: &Path) -> Ordering {
        self.names.as_slice().cmp(other.names.as_slice())
    }
}
