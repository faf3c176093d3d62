// The versions of a file that numeric backups keep.
ghost use Rattle.std.specs.Prelude.{◌≡◌, IfOk, nat_eq};
ghost use Rattle.std.specs.Ordering.{nat_cmp, as_partial_cmp};
ghost use Rattle.std.specs.Cmp.Lexicographic.{pointwise, slice_cmp};
ghost use Rattle.std.specs.Cmp.{partial_order_from_own_ties};
ghost use Rattle.std.specs.Cmp.Rules.{comparing};
ghost use Rattle.std.proofs.Common.{rules};

use dired_text::Memory;
use std::alloc::Global;
use std::cmp::Ordering;
use std::marker::Model;

/// What stands in the path of a numeric backup before `.~N~`: its directory and BASE.
#[derive(Debug, Drop)]
pub struct Stem {
    bytes: Vec<u8>,
}

impl Model for Stem {
    ghost use Rattle.std.specs.Prelude.{List, ℕ};

    ghost Value = { List ℕ };

    ghost view = { λ s. s.bytes.items };
}

impl Stem {
    /// Copies the bytes of a path.
    pub fn copy_of(alloc: Global, bytes: &[u8]) -> Result<Self, Memory>
        ensures { IfOk result (λ s. s ≡ bytes.now) }
    {
        Ok(Stem {
            bytes: Vec::from_slice(alloc, bytes)?,
        })
    }
}

impl PartialEq for Stem {
    ghost eq = { pointwise nat_eq };

    ghost laws = { Prim.search (comparing, rules) };

    fn eq(&self, other: &Stem) -> bool {
        self.bytes.as_slice() == other.bytes.as_slice()
    }
}

impl Eq for Stem {
    ghost laws = { Prim.search (comparing, rules) };
}

impl PartialOrd for Stem {
    ghost partial_cmp = { as_partial_cmp (slice_cmp nat_cmp) };

    ghost laws = { partial_order_from_own_ties (Prim.search (comparing, rules)) (Prim.search (comparing, rules)) };

    fn partial_cmp(&self, other: &Stem) -> Option<Ordering> {
        Some(self.cmp(other))
    }
}

impl Ord for Stem {
    ghost cmp = { slice_cmp nat_cmp };

    ghost total = { Prim.search (comparing, rules) };

    ghost matches_partial_cmp = { Prim.search (comparing, rules) };

    ghost matches_eq = { Prim.search (comparing, rules) };

    fn cmp(&self, other: &Stem) -> Ordering {
        self.bytes.as_slice().cmp(other.bytes.as_slice())
    }
}

/// Which version of a file a numeric backup is: the file's, by its stem, and the number N.
#[derive(Debug, PartialEq, Eq, PartialOrd, Ord, Drop)]
pub struct Version {
    pub stem: Stem,
    pub number: u64,
}
