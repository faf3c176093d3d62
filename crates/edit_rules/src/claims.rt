// Which lines claim what.
ghost use Rattle.std.specs.Prelude.{◌≡◌, ◌==◌, ℕ, IfOk, OnOk, Some, None, cond};
ghost use Rattle.std.specs.BTreeMap.{get};
ghost use Rattle.std.specs.Option.{option_map};
ghost use Rattle.std.specs.Ordering.{nat_cmp};
ghost use Rattle.dired_text.specs.Paths.{Names};
ghost use Rattle.path_map.specs.Walks.{IsPathMap, value_at};
ghost use Rattle.edit_words.specs.Rows.{is_same_path};
ghost use Rattle.edit_rules.specs.Claims.{claimed_by, first_line, other_line, least_line, lesser as lesser_line};

use dired_text::{Memory, Path};
use path_map::PathMap;
use std::alloc::Global;
use std::collections::BTreeMap;

/// The first line that claims something, the value that it claims it with, and the first line that claims it with another
/// value. Where lines claim a path, the value is the line itself.
#[derive(Clone, Copy)]
pub struct Claim {
    pub line: u32,
    pub value: u32,
    pub other: Option<u32>,
}

// The claim with that of a later line.
fn claimed(old: Option<Claim>, value: u32, line: u32) -> Claim
    ensures { result ≡ claimed_by value line old }
{
    match old {
        None => Claim {
            line,
            value,
            other: None,
        },
        Some(claim) if claim.value == value || claim.other.is_some() => claim,
        Some(claim) => Claim {
            other: Some(line),
            ..claim
        },
    }
}

// The first line that claims it with another value than this one.
fn other_than(claim: Option<Claim>, value: u32) -> Option<u32>
    ensures { result ≡ other_line claim value }
{
    match claim {
        None => None,
        Some(claim) if claim.value == value => claim.other,
        Some(claim) => Some(claim.line),
    }
}

/// The lesser of two lines, where there are two.
pub fn lesser(a: Option<u32>, b: Option<u32>) -> Option<u32>
    ensures { result ≡ lesser_line a b }
{
    match (a, b) {
        (Some(a), Some(b)) => Some(a.min(b)),
        (None, b) => b,
        (a, None) => a,
    }
}

/// The least first line of these claims.
pub fn least(claims: &[Option<&Claim>]) -> Option<u32>
    ensures { result ≡ least_line
        (λ claim. first_line (option_map (λ c. c.now) claim)) None claims.now }
{
    let mut least = None;
    for claim in claims {
        least = lesser(least, line_of(*claim));
    }
    least
}

/// The first line of a claim.
pub fn line_of(claim: Option<&Claim>) -> Option<u32>
    ensures { result ≡ first_line (option_map (λ c. c.now) claim.entry) }
{
    match claim {
        None => None,
        Some(claim) => Some(claim.line),
    }
}

/// Which lines claim a path.
#[derive(Drop)]
pub struct PathClaims {
    pub claims: PathMap<Claim>,
}

impl PathClaims {
    /// No claims.
    pub fn new(alloc: Global) -> Result<Self, Memory>
        ensures map { IfOk result (λ c. IsPathMap c.claims) }
        ensures empty { IfOk result (λ c. (p : Names) → value_at c.claims p ≡ None) }
    {
        Ok(PathClaims {
            claims: PathMap::new(alloc)?,
        })
    }

    /// Notes that a line claims a path. The lines come in their order.
    pub fn note(&mut self, path: &Path, line: u32) -> Result<(), Memory>
        requires { IsPathMap self.old.claims }
        ensures map { OnOk result (IsPathMap self.new.claims) }
        ensures noted { OnOk result ((p : Names) → value_at self.new.claims p ≡
            cond (is_same_path path.now p)
            (Some (claimed_by line line (value_at self.old.claims p)))
            (value_at self.old.claims p)) }
    {
        let claim = claimed(self.claims.get(path).copied(), line, line);
        self.claims.set(path, claim)?;
        Ok(())
    }

    /// The first line but this one that claims the path.
    pub fn other(&self, path: &Path, line: u32) -> Option<u32>
        ensures { result ≡ other_line (value_at self.now.claims path.now) line }
    {
        other_than(self.claims.get(path).copied(), line)
    }
}

/// Which lines claim a file, by its number.
#[derive(Drop)]
pub struct FileClaims {
    pub claims: BTreeMap<u64, Claim>,
}

impl FileClaims {
    /// No claims.
    pub fn new(alloc: Global) -> Self
        ensures { (n : ℕ) → get nat_cmp result.claims n ≡ None }
    {
        FileClaims {
            claims: BTreeMap::new(alloc),
        }
    }

    /// Notes that a line claims a file. The lines come in their order.
    pub fn note(&mut self, number: u64, value: u32, line: u32) -> Result<(), Memory>
        ensures { OnOk result ((n : ℕ) → get nat_cmp self.new.claims n ≡
            cond (number == n) (Some (claimed_by value line (get nat_cmp self.old.claims number)))
            (get nat_cmp self.old.claims n)) }
    {
        let claim = claimed(self.claims.get(&number).copied(), value, line);
        self.claims.insert(number, claim)?;
        Ok(())
    }

    /// The first line that claims the file.
    pub fn first(&self, number: u64) -> Option<u32>
        ensures { result ≡ first_line (get nat_cmp self.now.claims number) }
    {
        self.claims.get(&number).map(|claim| claim.line)
    }

    /// The first line that claims the file with another value than this one.
    pub fn other(&self, number: u64, value: u32) -> Option<u32>
        ensures { result ≡ other_line (get nat_cmp self.now.claims number) value }
    {
        other_than(self.claims.get(&number).copied(), value)
    }
}
