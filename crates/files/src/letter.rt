// How tallies are written: a letter.
ghost use Rattle.std.specs.Prelude.{◌≡◌, ℕ};

use tallies::by_weight::ByWeight;
use tallies::sworn_first::SwornFirst;

/// How a tally is written in files: its letter.
pub trait TallyLetter {
    /// The letter, as a byte.
    ghost initial: { ℕ };

    /// The letter of the tally, as files and reports have it: a byte, as that of a kind.
    fn letter() -> u8
        ensures { result ≡ initial };
}

impl TallyLetter for ByWeight {
    ghost initial = { 119 };

    // The byte of the format.
    fn letter() -> u8 {
        b'w'
    }
}

impl TallyLetter for SwornFirst {
    ghost initial = { 114 };

    // The byte of the format.
    fn letter() -> u8 {
        b'r'
    }
}
