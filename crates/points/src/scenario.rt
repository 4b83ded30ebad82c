// Scenarios: one code for each pair of items.
ghost use Rattle.std.specs.Prelude.{◌≡◌};
ghost use Rattle.points.specs.Scenarios.{pairs as pairs_of, place as place_of, entry as entry_of};

/// How many pairs n items have.
pub fn pairs(n: u8) -> usize
    ensures { result ≡ pairs_of n }
{
    let n = usize::from(n);
    n * n.saturating_sub(1) / 2
}

/// Where the pair of i and j stands in a scenario, i < j.
pub fn place(i: u8, j: u8) -> usize
    ensures { result ≡ place_of i j }
{
    pairs(j) + usize::from(i)
}

/// The code of the pair of i and j, i < j, or 0 where the scenario is too short to have one.
pub fn entry(scenario: &[u8], i: u8, j: u8) -> u8
    ensures { result ≡ entry_of scenario.now i j }
{
    scenario.get(place(i, j)).copied().unwrap_or(0)
}
