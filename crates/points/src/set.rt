// Sets of base relations, as bits.
ghost use Rattle.std.specs.Prelude.{◌≡◌};
ghost use Rattle.points.specs.Sets.{has};

/// Whether the base relation with this code is in the set; no set has a code of 64 or more.
pub fn contains(set: u64, code: u8) -> bool
    ensures { result ≡ has set code }
{
    code < 64 && (set >> code) & 1 == 1
}
