// Floors by numbers.
ghost use Rattle.std.specs.Prelude.{◌≡◌, map};
ghost use Rattle.std.specs.Option.{option_map};
ghost use Rattle.step_layers.specs.Floors.{floor_at as floor_of_number, highest_of, raised_all, raised_at};

// The highest of the floors of these numbers, and 0 where there is none.
pub(crate) fn highest(floors: &[usize], numbers: &[Option<&usize>]) -> usize
    ensures { result ≡ highest_of floors.now (map (option_map (λ n. n.now)) numbers.now) }
{
    let mut top = 0;
    for number in numbers {
        top = floor_at(floors, *number).max(top);
    }
    top
}

// The floor of a number, and 0 where there is none.
pub(crate) fn floor_at(floors: &[usize], number: Option<&usize>) -> usize
    ensures { result ≡ floor_of_number floors.now (option_map (λ n. n.now) number.entry) }
{
    match number {
        Some(number) => floors.get(*number).copied().unwrap_or(0),
        None => 0,
    }
}

// Raises the floors of these numbers.
pub(crate) fn raise_all(floors: &mut [usize], numbers: &[Option<&usize>], floor: usize)
    ensures { floors.new ≡ raised_all floor (map (option_map (λ n. n.now)) numbers.now) floors.old }
{
    for number in numbers {
        raise(floors, *number, floor);
    }
}

// Raises the floor of a number.
#[tactic(auto, using(crate::proofs::RaiseLemmas::raised_past))]
pub(crate) fn raise(floors: &mut [usize], number: Option<&usize>, floor: usize)
    ensures { floors.new ≡ raised_at floor (option_map (λ n. n.now) number.entry) floors.old }
{
    if let Some(number) = number {
        if *number < floors.len() {
            floors[*number] = floors[*number].max(floor);
        }
    }
}
