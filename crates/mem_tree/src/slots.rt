// What stands at each path, in the order of the paths.
ghost use Rattle.std.specs.Prelude.{◌≡◌, ◌++◌, Some, None, IfOk, OnOk, OnErr, IsSome, is_some, map};
ghost use Rattle.std.specs.Option.{option_copied, option_map};
ghost use Rattle.std.specs.List.{filter, list_any};
ghost use Rattle.std.specs.FinMap as fin;
ghost use Rattle.dired_text.specs.Paths.{is_below};
ghost use Rattle.tree_core.specs.Fields.{child_name as child_name_of};

use dired_text::{Memory, Name, Text, rest_below};
use std::alloc::Global;
use std::collections::BTreeMap;
use std::collections::btree_map::Iter;
use std::marker::Model;
use tree_core::Kind;

/// What stands at a path. A file is named by its number alone.
#[derive(Drop)]
pub enum Content {
    Dir(u16),
    Link(Text),
    File(u64),
}

impl Content {
    ghost use Rattle.mem_tree.specs.Slots.{content_kind, content_number, content_target};

    /// An equal content, in memory of its own.
    pub fn copy(&self) -> Result<Self, Memory>
        ensures { IfOk result (λ c. c ≡ self.now) }
    {
        Ok(match self {
            Content::Dir(mode) => Content::Dir(*mode),
            Content::Link(target) => Content::Link(target.copy()?),
            Content::File(number) => Content::File(*number),
        })
    }

    /// Its kind.
    pub fn kind(&self) -> Kind
        ensures { result ≡ content_kind self.now }
    {
        match self {
            Content::Dir(_) => Kind::Dir,
            Content::Link(_) => Kind::Link,
            Content::File(_) => Kind::File,
        }
    }

    /// The number of a file.
    pub fn number(&self) -> Option<u64>
        ensures { result ≡ content_number self.now }
    {
        match self {
            Content::File(number) => Some(*number),
            _ => None,
        }
    }

    /// The target of a link. What isn't a link has none.
    pub fn target(&self, alloc: Global) -> Result<Text, Memory>
        ensures { IfOk result (λ t. t ≡ content_target self.now) }
    {
        match self {
            Content::Link(target) => target.copy(),
            _ => Text::copy_of(alloc, ""),
        }
    }
}

/// What stands at a path, and the time of its last change in seconds since 1970.
#[derive(Drop)]
pub struct Slot {
    pub content: Content,
    pub mtime: i64,
}

impl Slot {
    /// An equal slot, in memory of its own.
    pub fn copy(&self) -> Result<Self, Memory>
        ensures { IfOk result (λ s. s ≡ self.now) }
    {
        Ok(Slot {
            content: self.content.copy()?,
            mtime: self.mtime,
        })
    }
}

/// The slots by path. A rename may carry one to names that are too long for a `Path`.
#[derive(Drop)]
pub struct SlotMap {
    alloc: Global,
    slots: BTreeMap<Vec<Name>, Slot>,
}

impl Model for SlotMap {
    ghost use Rattle.std.specs.Prelude.{◌≡◌, true};
    ghost use Rattle.std.specs.FinMap.{from_entries, is_sorted};
    ghost use Rattle.dired_text.specs.Paths.{path_cmp};
    ghost use Rattle.mem_tree.specs.Slots.{Slots, slots_code, placed};

    ghost Value = { Slots };

    ghost coded = { slots_code };

    ghost view = { λ m. from_entries (placed m.slots.entries) };

    ghost invariant = { λ m. is_sorted path_cmp (placed m.slots.entries) ≡ true };
}

impl SlotMap {
    ghost use Rattle.mem_tree.specs.Slots.{placed, with_content};

    /// No slots.
    pub fn new(alloc: Global) -> Self
        ensures { result ≡ fin.empty }
    {
        SlotMap {
            alloc,
            slots: BTreeMap::new(alloc),
        }
    }

    /// The slot at these names.
    pub fn get(&self, names: &[Name]) -> Option<&Slot>
        ensures { option_copied result ≡ fin.get self.now names.now }
    {
        self.slots.get(names)
    }

    /// Puts a slot there, over the one that may stand there.
    pub fn insert(&mut self, names: &[Name], slot: Slot) -> Result<(), Memory>
        ensures ok { OnOk result (self.new ≡ fin.insert self.old names.now slot) }
        ensures err { OnErr result (self.new ≡ self.old) }
    {
        self.slots.insert(copy_names(self.alloc, names)?, slot)?;
        Ok(())
    }

    /// Gives the slot there another content, where there is one. Takes no memory.
    pub fn set_content(&mut self, names: &[Name], content: Content)
        ensures { self.new ≡ with_content names.now content self.old }
    {
        if let Some(slot) = self.slots.get_mut(names) {
            slot.content = content;
        }
    }

    /// Takes the slot there out.
    pub fn remove(&mut self, names: &[Name]) -> Option<Slot>
        ensures found { result ≡ fin.get self.old names.now }
        ensures after { self.new ≡ fin.remove self.old names.now }
    {
        self.slots.remove(names)
    }

    /// The slots in the order of their paths.
    pub fn iter(&self) -> Iter<'_, Vec<Name>, Slot>
        ensures { placed result ≡ fin.entries self.now }
    {
        self.slots.iter()
    }

    /// Equal slots, in memory of their own.
    pub fn copy(&self) -> Result<Self, Memory>
        ensures { IfOk result (λ m. m ≡ self.now) }
    {
        let mut all = SlotMap::new(self.alloc);
        for (names, slot) in &self.slots {
            all.insert(names, slot.copy()?)?;
        }
        Ok(all)
    }

    /// The names of the slots at `names` and below them, in their order.
    pub fn below(&self, names: &[Name]) -> Result<Vec<&[Name]>, Memory>
        requires { IsSome (fin.get self.now names.now) }
        ensures { IfOk result (λ v. map (λ k. k.now) v.items ≡
            filter (is_below names.now) (fin.keys self.now)) }
    {
        let mut found = Vec::new(self.alloc);
        if let Some((first, _)) = self.slots.get_key_value(names) {
            for (key, _) in self.slots.range(first..) {
                if rest_below(names, key).is_none() {
                    break;
                }
                found.push(key.as_slice())?;
            }
        }
        Ok(found)
    }

    /// Whether a slot is directly below `names`.
    pub fn has_child(&self, names: &[Name]) -> bool
        requires { IsSome (fin.get self.now names.now) }
        ensures { result ≡ list_any (λ k. is_some (child_name_of names.now k)) (fin.keys self.now) }
    {
        if let Some((first, _)) = self.slots.get_key_value(names) {
            for (key, _) in self.slots.range(first..) {
                if child_name(names, key).is_some() {
                    return true;
                }
                if rest_below(names, key).is_none() {
                    return false;
                }
            }
        }
        false
    }
}

/// The last of these names, where they are directly below others.
pub fn child_name<'a>(dir: &[Name], names: &'a [Name]) -> Option<&'a Name>
    ensures { option_map (λ n. n.now) result ≡ child_name_of dir.now names.now }
{
    match rest_below(dir, names) {
        Some([name]) => Some(name),
        _ => None,
    }
}

/// Adds copies of names.
pub fn push_copies(all: &mut Vec<Name>, names: &[Name]) -> Result<(), Memory>
    ensures { OnOk result (all.new.items ≡ all.old.items ++ names.now) }
{
    for name in names {
        all.push(name.copy()?)?;
    }
    Ok(())
}

/// Copies names.
pub fn copy_names(alloc: Global, names: &[Name]) -> Result<Vec<Name>, Memory>
    ensures { IfOk result (λ v. v.items ≡ names.now) }
{
    let mut all = Vec::with_capacity(alloc, names.len())?;
    push_copies(&mut all, names)?;
    Ok(all)
}
