// The kind S: spells, with the base relations of the interval algebra.
#![tactic(auto)]

ghost use Rattle.std.specs.Prelude.{refl};
ghost use Rattle.kinds.specs.Layouts.{fit};
ghost use Rattle.spells.specs.Spells.{spells as spell_meaning, timeline as timeline_layout, spell as spell_at, spell_words, spells};
ghost use Rattle.kinds.proofs.Framed.{laws};
ghost use Rattle.spells.specs.Spelled.{spelled, spells_partition, spells_realise};
ghost use Rattle.kinds.proofs.Framed;
ghost use Rattle.kinds.proofs.Worded;

use kinds::kind::{Kind, Scheme};
use kinds::notation::{Notation, WholeNotation};
use kinds::table::look_up;
use points::set::contains;
use spell::{Spell, relate};
use table::{TABLE, timeline};

pub mod spell;
mod table;

/// The kind of spells.
pub struct Spells;

impl Kind for Spells {
    type Value = Spell;

    const CODES: u8 = 13;

    ghost meaning = { spell_meaning };

    ghost fit = { fit timeline_layout };

    ghost values = { spell_at };

    ghost lawful = { laws spells timeline_layout spelled };

    ghost involutive = { Framed.involutive spells timeline_layout spelled };

    ghost composes = { Framed.composes spells timeline_layout spelled };

    ghost realises = { spells_realise };

    // In each kind: given in the trait, it would ask of every kind that its constant be the number that is meant.
    fn count() -> u8 {
        Self::CODES
    }

    fn relation(first: Spell, second: Spell) -> u8 {
        // A case as its number, which only a cast gives.
        relate(first, second) as u8
    }

    // The converses stand side by side in the order of the codes, after eq.
    fn converse(code: u8) -> u8 {
        match code {
            1 | 3 | 5 | 7 | 9 | 11 => code + 1,
            2 | 4 | 6 | 8 | 10 | 12 => code - 1,
            _ => code,
        }
    }

    fn fits(c: u8, d: u8, e: u8) -> bool {
        // The kind's own table: a body in the trait could name none without owing a table of every kind.
        contains(look_up(&TABLE, c, d), e)
    }

    fn value(items: u8, scenario: &[u8], item: u8) -> Spell {
        let axis = timeline();
        // Each field is a rank of its own.
        Spell {
            start: axis.rank(items, scenario, item, 0),
            end: axis.rank(items, scenario, item, 1),
        }
    }
}

impl Scheme for Spells {
    ghost partition = { spells_partition };
}

impl Notation for Spells {
    ghost initial = { 83 };

    ghost words = { spell_words };

    ghost unambiguous = { Worded.unambiguous spell_words tt };

    // The byte of the format.
    fn letter() -> u8 {
        b'S'
    }

    // A `match` each way, as a code is a number and has no `Display` of its own.
    fn word<'a>(code: u8) -> &'a str {
        match code {
            0 => "eq",
            1 => "p",
            2 => "pi",
            3 => "m",
            4 => "mi",
            5 => "o",
            6 => "oi",
            7 => "s",
            8 => "si",
            9 => "d",
            10 => "di",
            11 => "f",
            12 => "fi",
            _ => "",
        }
    }

    fn code(word: &[u8]) -> Option<u8> {
        match word {
            [b'e', b'q'] => Some(0),
            [b'p'] => Some(1),
            [b'p', b'i'] => Some(2),
            [b'm'] => Some(3),
            [b'm', b'i'] => Some(4),
            [b'o'] => Some(5),
            [b'o', b'i'] => Some(6),
            [b's'] => Some(7),
            [b's', b'i'] => Some(8),
            [b'd'] => Some(9),
            [b'd', b'i'] => Some(10),
            [b'f'] => Some(11),
            [b'f', b'i'] => Some(12),
            _ => None,
        }
    }
}

impl WholeNotation for Spells {
    ghost worded = { refl };

    ghost written = { refl };

    ghost named = { Worded.named spell_words (Worded.unambiguous spell_words tt) };
}
