// The links of the nodes.
ghost use Rattle.std.specs.Prelude.{◌≡◌, ◌+◌, ◌^◌, ◌<◌, ◌≤◌, ◌==◌, if◌then◌else◌, IfOk, OnOk, OnErr};
ghost use Rattle.link_rows.specs.Net.{alone, cut_out, grown, linked, next_of, nodes, prev_of, pushed, relinked, spliced, unlinked, CanRelink, Cuts, IsNet, Pushes, Relinks, Splices, Unlinks};

use dired_text::Memory;
use std::alloc::Global;
use std::marker::Model;

/// Nodes that are linked both ways. The first are heads of lists, and the others are rows.
#[derive(Drop)]
pub struct Links {
    heads: usize,
    next: Vec<usize>,
    prev: Vec<usize>,
}

impl Model for Links {
    ghost use Rattle.std.specs.Prelude.{ℕ, List, ◌-◌, min, vec_capacity, length};
    ghost use Rattle.std.specs.Coded.{coded×, coded_ℕ};
    ghost use Rattle.link_rows.specs.Net.{Net, net, net_code, IsNet};

    ghost Value = { Net × ℕ };

    ghost coded = { coded× net_code coded_ℕ };

    ghost view = { λ s. (net s.heads s.next.items s.prev.items, min (vec_capacity s.next - length s.next.items) (vec_capacity s.prev - length s.prev.items)) };

    ghost invariant = { λ s. IsNet (net s.heads s.next.items s.prev.items) };
}

// A clause sees the links first, and then how many nodes may be added without memory.
impl Links {
    // So many heads, each alone.
    pub fn new(alloc: Global, heads: u32) -> Result<Self, Memory>
        ensures { IfOk result (λ s. s.0 ≡ alone heads) }
    {
        let mut next = Vec::new(alloc);
        let mut prev = Vec::new(alloc);
        for head in 0..heads as usize {
            next.push(head)?;
            prev.push(head)?;
        }
        Ok(Links {
            heads: heads as usize,
            next,
            prev,
        })
    }

    pub fn heads(&self) -> usize
        ensures value { result ≡ self.now.0.heads }
        ensures short { result < 2 ^ 32 }
    {
        self.heads
    }

    // Each link leads to a node.
    pub fn are_sound(&self)
        ensures { IsNet self.now.0 }
    {
        let _heads = self.heads;
    }

    // How many nodes there are.
    pub fn len(&self) -> usize
        ensures { result ≡ nodes self.now.0 }
    {
        self.next.len()
    }

    pub fn next(&self, node: usize) -> usize
        requires { node < nodes self.now.0 }
        ensures value { result ≡ next_of self.now.0 node }
        ensures within { result < nodes self.now.0 }
    {
        self.next[node]
    }

    pub fn prev(&self, node: usize) -> usize
        requires { node < nodes self.now.0 }
        ensures value { result ≡ prev_of self.now.0 node }
        ensures within { result < nodes self.now.0 }
    {
        self.prev[node]
    }

    // Makes room for so many nodes more.
    pub fn reserve(&mut self, more: usize) -> Result<(), Memory>
        ensures net { self.new.0 ≡ self.old.0 }
        ensures room { self.old.1 ≤ self.new.1 }
        ensures ok { OnOk result (more ≤ self.new.1) }
        ensures full { OnErr result (self.old.1 < more) }
    {
        self.next.reserve(more)?;
        self.prev.reserve(more)?;
        Ok(())
    }

    // Adds a node that is linked to itself, in the room that there is.
    fn grow(&mut self)
        requires { 0 < self.old.1 }
        ensures net { self.new.0 ≡ grown self.old.0 }
        ensures room { self.old.1 ≤ self.new.1 + 1 }
    {
        let node = self.next.len();
        let _ = self.next.push(node);
        let _ = self.prev.push(node);
    }

    // Puts b behind a.
    fn link(&mut self, a: usize, b: usize)
        requires a_made { a < nodes self.old.0 }
        requires b_made { b < nodes self.old.0 }
        ensures net { self.new.0 ≡ linked a b self.old.0 }
        ensures room { self.new.1 ≡ self.old.1 }
    {
        self.next[a] = b;
        self.prev[b] = a;
    }

    // Adds a node at the end of a list, in the room that there is.
    pub fn push_back(&mut self, list: usize)
        requires made { list < nodes self.old.0 }
        requires room { 0 < self.old.1 }
        ensures net { self.new.0 ≡ pushed list self.old.0 }
        ensures lists { Pushes self.old.0 list self.new.0 }
        ensures room { self.old.1 ≤ self.new.1 + 1 }
    {
        let _heads = self.heads;
        let node = self.len();
        let last = self.prev(list);
        self.grow();
        self.link(last, node);
        self.link(node, list);
    }

    pub fn unlink(&mut self, row: usize)
        requires { row < nodes self.old.0 }
        ensures net { self.new.0 ≡ unlinked row self.old.0 }
        ensures lists { Unlinks self.old.0 row self.new.0 }
        ensures room { self.new.1 ≡ self.old.1 }
    {
        let _heads = self.heads;
        let before = self.prev(row);
        let behind = self.next(row);
        self.link(before, behind);
    }

    pub fn relink(&mut self, row: usize)
        requires { row < nodes self.old.0 }
        ensures net { self.new.0 ≡ relinked row self.old.0 }
        ensures lists { CanRelink self.old.0 row → Relinks self.old.0 row self.new.0 }
        ensures room { self.new.1 ≡ self.old.1 }
    {
        let _heads = self.heads;
        let before = self.prev(row);
        let behind = self.next(row);
        self.link(before, row);
        self.link(row, behind);
    }

    // Puts the rows of a list behind a node of another list.
    pub fn splice(&mut self, after: usize, other: usize)
        requires after { after < nodes self.old.0 }
        requires other { other < nodes self.old.0 }
        ensures net { self.new.0 ≡
            (if next_of self.old.0 other == other then self.old.0
            else spliced after other self.old.0) }
        ensures lists { Splices self.old.0 after other self.new.0 }
        ensures heads { self.new.0.heads ≡ self.old.0.heads }
        ensures nodes { nodes self.new.0 ≡ nodes self.old.0 }
        ensures room { self.new.1 ≡ self.old.1 }
    {
        let _heads = self.heads;
        let first = self.next(other);
        if first != other {
            let behind = self.next(after);
            let last = self.prev(other);
            self.link(after, first);
            self.link(last, behind);
            self.link(other, other);
        }
    }

    // Takes the rows from the first to the last out of their list and puts them into an empty one.
    pub fn cut(&mut self, first: usize, last: usize, other: usize)
        requires first { first < nodes self.old.0 }
        requires last { last < nodes self.old.0 }
        requires other { other < nodes self.old.0 }
        ensures net { self.new.0 ≡ cut_out first last other self.old.0 }
        ensures lists { Cuts self.old.0 first last other self.new.0 }
        ensures room { self.new.1 ≡ self.old.1 }
    {
        let _heads = self.heads;
        let before = self.prev(first);
        let end = self.next(last);
        self.link(last, other);
        self.link(before, end);
        self.link(other, first);
    }
}
