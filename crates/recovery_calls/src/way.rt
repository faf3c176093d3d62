// The places of the marker on a way, with its paths there.
ghost use Rattle.std.specs.Prelude.{◌≡◌, ◌-◌, ◌++◌, ◌∷◌, [], ◌<◌, ◌≤◌, ◌==◌, IfOk, get_or, if◌then◌else◌, length, nat_lt};
ghost use Rattle.std.specs.List.{filter};
ghost use Rattle.recovery_calls.specs.Works.{LeadsBack, LeadsForward};
ghost use Rattle.step_cuts.specs.Cuts.{ends_of};
ghost use Rattle.step_trees.specs.Groups.{groups};

use commit_calls::{at_markers, back_markers};
use commit_steps::Step;
use dired_text::{Memory, Path};
use std::alloc::Global;

/// The places at which the marker stands on a way, and its paths there, made beforehand so that the way takes no memory.
#[derive(Drop)]
pub struct Way {
    /// The place at which the way begins.
    pub from: usize,
    /// The places, from the first to the last of the steps. A way forward begins at the first of them, and a way back at the last.
    pub places: Vec<usize>,
    /// The path of the marker at each.
    pub markers: Vec<Path>,
}

impl Way {
    // How many parts lie between the places.
    pub(crate) fn parts(&self) -> usize
        requires { 0 < length self.now.places.items }
        ensures { result ≡ length self.now.places.items - 1 }
    {
        self.places.len() - 1
    }

    // Place number k.
    pub(crate) fn place(&self, k: usize) -> usize
        requires { k < length self.now.places.items }
        ensures { result ≡ get_or self.now.places.items k 0 }
    {
        self.places[k]
    }

    // The path of the marker at place number k.
    pub(crate) fn marker(&self, k: usize) -> &Path
        requires { k < length self.now.markers.items }
        ensures { result.now ≡ get_or self.now.markers.items k [] }
    {
        &self.markers[k]
    }
}

/// The way forward from a place, to the end of the steps. `ends` are where their groups end.
///
/// # Errors
/// `Memory` where an allocation was refused.
pub fn forward_way(
    alloc: Global,
    steps: &[Step],
    ends: &[usize],
    from: usize,
) -> Result<Way, Memory>
    requires ends { ends.now ≡ ends_of 0 (groups steps.now) }
    requires within { from ≤ length steps.now }
    ensures leads { IfOk result (λ w. LeadsForward steps.now w) }
    ensures from { IfOk result (λ w. w.from ≡ from) }
{
    let places = places_behind(alloc, ends, from)?;
    let markers = at_markers(alloc, &places)?;
    Ok(Way {
        from,
        places,
        markers,
    })
}

/// The way back from a place, to the first. `ends` are where the groups of the steps end.
///
/// # Errors
/// `Memory` where an allocation was refused.
pub fn back_way(alloc: Global, steps: &[Step], ends: &[usize], from: usize) -> Result<Way, Memory>
    requires ends { ends.now ≡ ends_of 0 (groups steps.now) }
    requires within { from ≤ length steps.now }
    ensures leads { IfOk result (λ w. LeadsBack steps.now w) }
    ensures from { IfOk result (λ w. w.from ≡ from) }
{
    let places = places_before(alloc, ends, from)?;
    let markers = back_markers(alloc, &places)?;
    Ok(Way {
        from,
        places,
        markers,
    })
}

// The place, and the ends behind it.
fn places_behind(alloc: Global, ends: &[usize], from: usize) -> Result<Vec<usize>, Memory>
    ensures { IfOk result (λ v. v.items ≡ from ∷ filter (nat_lt from) ends.now) }
{
    let mut places = Vec::new(alloc);
    places.push(from)?;
    for end in ends {
        if *end > from {
            places.push(*end)?;
        }
    }
    Ok(places)
}

// The first place, the ends before this one, and this one.
fn places_before(alloc: Global, ends: &[usize], from: usize) -> Result<Vec<usize>, Memory>
    ensures { IfOk result (λ v. v.items ≡ 0 ∷
        (if from == 0 then [] else filter (λ end. nat_lt end from) ends.now ++ from ∷ [])) }
{
    let mut places = Vec::new(alloc);
    places.push(0)?;
    if from == 0 {
        return Ok(places);
    }
    for end in ends {
        if *end < from {
            places.push(*end)?;
        }
    }
    places.push(from)?;
    Ok(places)
}

// The next cut behind a place, or the place itself, where it is the end of the steps.
pub(crate) fn next_cut(ends: &[usize], from: usize) -> usize
    ensures { result ≡ get_or (filter (nat_lt from) ends.now) 0 from }
{
    for end in ends {
        if *end > from {
            return *end;
        }
    }
    from
}
