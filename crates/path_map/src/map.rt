// Values by paths, found name by name.
ghost use Rattle.std.specs.Prelude.{◌≡◌, ◌<◌, ℕ, IfOk, OnOk, Some, None, cond, length, map, take};
ghost use Rattle.std.specs.Option.{option_and_then, option_map};
ghost use Rattle.std.specs.Ordering.{eq_by_cmp};
ghost use Rattle.dired_text.specs.Paths.{Names, path_cmp};
ghost use Rattle.path_map.specs.Walks.{IsLinked, IsPathMap, child as child_of, firsts, is_above, value_at, value_of as value_of_number, walk};

use dired_text::{Memory, Name, Path};
use std::alloc::Global;
use std::collections::BTreeMap;

/// Values by paths. A path that has a value and all paths above it have numbers, and the root has 0.
#[derive(Drop)]
pub struct PathMap<V> {
    // the numbers of what is directly below each number, by name
    below: Vec<BTreeMap<Name, usize>>,
    // the value of each number
    values: Vec<Option<V>>,
}

impl<V: Drop> PathMap<V> {
    /// No values.
    ///
    /// # Errors
    /// Want of memory.
    pub fn new(alloc: Global) -> Result<Self, Memory>
        ensures map { IfOk result IsPathMap }
        ensures empty { IfOk result (λ m. (p : Names) → value_at m p ≡ None) }
    {
        let mut below = Vec::new(alloc);
        below.push(BTreeMap::new(alloc))?;
        let mut values = Vec::new(alloc);
        values.push(None)?;
        Ok(PathMap { below, values })
    }

    /// The value of a path.
    pub fn get(&self, path: &Path) -> Option<&V>
        ensures { option_map (λ v. v.now) result ≡ value_at self.now path.now }
    {
        let mut at = Some(0);
        for name in path.names() {
            at = self.child(at, name);
        }
        self.value(at)
    }

    /// The values of the root and of each path down to this one.
    ///
    /// # Errors
    /// Want of memory.
    pub fn along(&self, alloc: Global, path: &Path) -> Result<Vec<Option<&V>>, Memory>
        ensures { IfOk result (λ r. map (option_map (λ v. v.now)) r.items ≡
            map (value_at self.now) (firsts path.now)) }
    {
        let mut at = Some(0);
        let mut values = Vec::new(alloc);
        values.push(self.value(at))?;
        for name in path.names() {
            at = self.child(at, name);
            let found = self.value(at);
            values.push(found)?;
        }
        Ok(values)
    }

    /// The values of the root and of each path down to the directory of this one.
    ///
    /// # Errors
    /// Want of memory.
    pub fn above(&self, alloc: Global, path: &Path) -> Result<Vec<Option<&V>>, Memory>
        ensures { IfOk result (λ r. map (option_map (λ v. v.now)) r.items ≡
            map (value_at self.now) (take (length path.now) (firsts path.now))) }
    {
        let mut values = self.along(alloc, path)?;
        values.truncate(path.names().len());
        Ok(values)
    }

    // The number of a name below a number.
    fn child(&self, at: Option<usize>, name: &Name) -> Option<usize>
        ensures { result ≡ option_and_then (λ i. child_of self.now.below.items i name.now) at }
    {
        self.below.get(at?)?.get(name).copied()
    }

    // The value of a number.
    fn value(&self, at: Option<usize>) -> Option<&V>
        ensures { option_map (λ v. v.now) result ≡
            option_and_then (value_of_number self.now.values.items) at }
    {
        self.values.get(at?)?.as_ref()
    }

    /// Gives a path a value.
    ///
    /// # Errors
    /// Want of memory.
    pub fn set(&mut self, path: &Path, value: V) -> Result<(), Memory>
        requires { IsPathMap self.old }
        ensures map { OnOk result (IsPathMap self.new) }
        ensures set { OnOk result ((p : Names) → value_at self.new p ≡
            cond (eq_by_cmp path_cmp path.now p) (Some value) (value_at self.old p)) }
    {
        let mut at = 0;
        for name in path.names() {
            at = self.enter(at, name)?;
        }
        self.values[at] = Some(value);
        Ok(())
    }

    // The number of a name below a number, a new one where it has none.
    fn enter(&mut self, at: usize, name: &Name) -> Result<usize, Memory>
        requires map { IsPathMap self.old }
        requires at { at < length self.old.below.items }
        ensures map { OnOk result (IsPathMap self.new) }
        ensures made { IfOk result (λ next. next < length self.new.below.items) }
        ensures child { IfOk result (λ next. child_of self.new.below.items at name.now ≡
            Some next) }
        ensures grown { OnOk result ((p : Names) (i : ℕ) → walk self.old.below.items 0 p ≡ Some i →
            walk self.new.below.items 0 p ≡ Some i) }
        ensures kept { OnOk result ((p : Names) → value_at self.new p ≡ value_at self.old p) }
    {
        if let Some(next) = self.child(Some(at), name) {
            return Ok(next);
        }
        let next = self.values.len();
        self.values.push(None)?;
        self.below.push(BTreeMap::new(*self.values.allocator()))?;
        self.link(at, name, next)?;
        Ok(next)
    }

    // Puts a number below another one.
    fn link(&mut self, at: usize, name: &Name, next: usize) -> Result<(), Memory>
        requires { at < length self.old.below.items }
        ensures values { self.new.values ≡ self.old.values }
        ensures linked { OnOk result
            (IsLinked self.old.below.items self.new.below.items at name.now next) }
    {
        self.below[at].insert(name.copy()?, next)?;
        Ok(())
    }
}

impl<V: Copy + Drop> PathMap<V> {
    /// Gives each path above this one a value, the root too.
    ///
    /// # Errors
    /// Want of memory.
    pub fn set_above(&mut self, path: &Path, mark: V) -> Result<(), Memory>
        requires { IsPathMap self.old }
        ensures map { OnOk result (IsPathMap self.new) }
        ensures set { OnOk result ((p : Names) → value_at self.new p ≡
            cond (is_above p path.now) (Some mark) (value_at self.old p)) }
    {
        let mut at = 0;
        for name in path.names() {
            self.values[at] = Some(mark);
            at = self.enter(at, name)?;
        }
        Ok(())
    }
}
