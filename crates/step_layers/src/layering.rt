// Steps that are put into layers, one behind the other.
ghost use Rattle.std.specs.Prelude.{◌≡◌, ◌≤◌, [], ◌∷◌, ◌++◌, IfOk, OnOk, length};
ghost use Rattle.std.specs.List.{AllByRecursion};
ghost use Rattle.dired_text.specs.Paths.{Names};
ghost use Rattle.commit_steps.specs.Tests.{are_apart};
ghost use Rattle.step_trees.specs.Groups.{joined as joined_layers, paths_of};
ghost use Rattle.step_layers.specs.Layers.{free_from, layer_behind, put};
ghost use Rattle.step_layers.specs.Layering.{contents, HasNumber, HasNumbers, IsNumbered, IsRaised, IsSound};

use crate::floors::{floor_at, highest, raise, raise_all};
use commit_steps::Step;
use dired_text::{Memory, Path};
use path_map::PathMap;
use std::alloc::Global;

// The paths that steps name have numbers. For each number it is kept from which layer on no step names its path, and from which on none
// names a path below it.
#[derive(Drop)]
pub(crate) struct Layering {
    numbers: PathMap<usize>,
    at: Vec<usize>,
    under: Vec<usize>,
    layers: Vec<Vec<Step>>,
}

impl Layering {
    // No steps so far, of such as these.
    pub(crate) fn of(alloc: Global, steps: &[Step]) -> Result<Self, Memory>
        ensures sound { IfOk result IsSound }
        ensures numbered { IfOk result (λ l. AllByRecursion (HasNumbers l.numbers) steps.now) }
        ensures none { IfOk result (λ l. l.layers.items ≡ []) }
    {
        let mut layering = Self::new(alloc)?;
        for step in steps {
            layering.number_step(step)?;
        }
        Ok(layering)
    }

    fn new(alloc: Global) -> Result<Self, Memory>
        ensures sound { IfOk result IsSound }
        ensures none { IfOk result (λ l. l.layers.items ≡ []) }
    {
        Ok(Layering {
            numbers: PathMap::new(alloc)?,
            at: Vec::new(alloc),
            under: Vec::new(alloc),
            layers: Vec::new(alloc),
        })
    }

    // Gives the paths of a step numbers.
    fn number_step(&mut self, step: &Step) -> Result<(), Memory>
        requires sound { IsSound self.old }
        requires none { self.old.layers.items ≡ [] }
        ensures sound { OnOk result (IsSound self.new) }
        ensures none { self.new.layers.items ≡ [] }
        ensures numbered { OnOk result (HasNumbers self.new.numbers step.now) }
        ensures kept { OnOk result
            ((p : Names) → HasNumber self.old.numbers p → HasNumber self.new.numbers p) }
    {
        match step {
            Step::MakeDir(path) => self.number(path),
            Step::Rename(from, to) => {
                self.number(from)?;
                self.number(to)
            }
            Step::Mode(path, _, _) => self.number(path),
        }
    }

    // Gives a path a number, unless it has one.
    fn number(&mut self, path: &Path) -> Result<(), Memory>
        requires sound { IsSound self.old }
        requires none { self.old.layers.items ≡ [] }
        ensures sound { OnOk result (IsSound self.new) }
        ensures none { self.new.layers.items ≡ [] }
        ensures numbered { OnOk result (HasNumber self.new.numbers path.now) }
        ensures kept { OnOk result
            ((p : Names) → HasNumber self.old.numbers p → HasNumber self.new.numbers p) }
    {
        if self.numbers.get(path).is_none() {
            self.numbers.set(path, self.at.len())?;
            self.at.push(0)?;
            self.under.push(0)?;
        }
        Ok(())
    }

    // Puts a step into its layer, as the last one there.
    pub(crate) fn take(&mut self, alloc: Global, step: Step) -> Result<(), Memory>
        requires sound { IsSound self.old }
        requires numbered { HasNumbers self.old.numbers step }
        ensures sound { OnOk result (IsSound self.new) }
        ensures numbers { OnOk result (self.new.numbers ≡ self.old.numbers) }
        ensures taken { OnOk result (contents self.new.layers.items
            ≡ put (layer_behind (contents self.old.layers.items) step) step
            (contents self.old.layers.items)) }
    {
        // so one layer more can be counted too
        let _count = self.layers.len();
        let layer = self.layer(alloc, &step)?;
        self.raise_step(alloc, &step, layer + 1)?;
        put_step(alloc, &mut self.layers, layer, step)?;
        Ok(())
    }

    // The layer of a step.
    #[tactic(auto, using(crate::proofs::FloorLemmas::one_path))]
    fn layer(&self, alloc: Global, step: &Step) -> Result<usize, Memory>
        requires sound { IsSound self.now }
        requires numbered { HasNumbers self.now.numbers step.now }
        ensures layer { IfOk result
            (λ n. n ≡ layer_behind (contents self.now.layers.items) step.now) }
        ensures small { IfOk result (λ n. n ≤ length self.now.layers.items) }
    {
        match step {
            Step::MakeDir(path) => self.floor(alloc, path),
            Step::Rename(from, to) => {
                let from = self.floor(alloc, from)?;
                Ok(self.floor(alloc, to)?.max(from))
            }
            Step::Mode(path, _, _) => self.floor(alloc, path),
        }
    }

    // From which layer on no path is related to this one.
    fn floor(&self, alloc: Global, path: &Path) -> Result<usize, Memory>
        requires sound { IsSound self.now }
        requires numbered { HasNumber self.now.numbers path.now }
        ensures floor { IfOk result
            (λ n. n ≡ free_from 0 (are_apart path.now) (contents self.now.layers.items)) }
        ensures small { IfOk result (λ n. n ≤ length self.now.layers.items) }
    {
        let along = self.numbers.along(alloc, path)?;
        let named = highest(&self.at, &along);
        let below = floor_at(&self.under, self.numbers.get(path));
        Ok(named.max(below))
    }

    // Raises the floors on which the paths of a step bear.
    fn raise_step(&mut self, alloc: Global, step: &Step, floor: usize) -> Result<(), Memory>
        requires numbered { IsNumbered self.old }
        requires has { HasNumbers self.old.numbers step.now }
        ensures { OnOk result (IsRaised (paths_of step.now) floor self.old self.new) }
    {
        match step {
            Step::MakeDir(path) => self.raise_path(alloc, path, floor),
            Step::Rename(from, to) => {
                self.raise_path(alloc, from, floor)?;
                self.raise_path(alloc, to, floor)
            }
            Step::Mode(path, _, _) => self.raise_path(alloc, path, floor),
        }
    }

    // Raises the floors on which a path bears: its own, and those of the paths above it.
    fn raise_path(&mut self, alloc: Global, path: &Path, floor: usize) -> Result<(), Memory>
        requires numbered { IsNumbered self.old }
        requires has { HasNumber self.old.numbers path.now }
        ensures { OnOk result (IsRaised (path.now ∷ []) floor self.old self.new) }
    {
        let above = self.numbers.above(alloc, path)?;
        raise_all(&mut self.under, &above, floor);
        raise(&mut self.at, self.numbers.get(path), floor);
        Ok(())
    }

    // All steps, layer by layer.
    pub(crate) fn joined(self, alloc: Global) -> Result<Vec<Step>, Memory>
        ensures { IfOk result
            (λ all. all.items ≡ joined_layers (contents self.layers.items)) }
    {
        let mut all = Vec::new(alloc);
        for mut layer in self.layers {
            all.append(&mut layer)?;
        }
        Ok(all)
    }
}

// Puts a step at the end of a layer: of one that there is, or of the next one.
fn put_step(
    alloc: Global,
    layers: &mut Vec<Vec<Step>>,
    layer: usize,
    step: Step,
) -> Result<(), Memory>
    requires { layer ≤ length layers.old.items }
    ensures { OnOk result (contents layers.new.items ≡ put layer step (contents layers.old.items)) }
{
    if layer == layers.len() {
        layers.push(Vec::new(alloc))?;
    }
    layers[layer].push(step)?;
    Ok(())
}
