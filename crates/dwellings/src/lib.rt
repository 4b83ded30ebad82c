// The kind D: dwellings, with the cardinal directions.
#![tactic(auto)]

ghost use Rattle.std.specs.Prelude.{◌∷◌, ◌++◌, Some, refl};
ghost use Rattle.std.specs.Fmt.{decimal};
ghost use Rattle.points.specs.Marks.{Draws};
ghost use Rattle.kinds.specs.Layouts.{fit};
ghost use Rattle.dwellings.specs.Dwellings.{dwelling_words, dwellings, compass, dwelling};
ghost use Rattle.kinds.proofs.Framed.{laws};
ghost use Rattle.dwellings.specs.Charted.{charted, dwellings_partition, dwellings_realise};
ghost use Rattle.kinds.proofs.Framed;
ghost use Rattle.kinds.proofs.Worded;

use kinds::kind::{Kind, Scheme};
use kinds::notation::{Notation, WholeNotation};
use kinds::table::{Row, look_up};
use points::axis::{Axis, Order};
use points::set::contains;
use std::cmp::Ordering;
use std::fmt;

/// A place in the plane, by a number that grows to the east and one that grows to the north.
#[derive(Clone, Copy)]
pub struct Dwelling {
    pub east: u32,
    pub north: u32,
}

/// The kind of dwellings.
pub struct Dwellings;

// The base relations as sets of one.
const EQ: u64 = 1 << 0;

const N: u64 = 1 << 1;

const NE: u64 = 1 << 2;

const E: u64 = 1 << 3;

const SE: u64 = 1 << 4;

const S: u64 = 1 << 5;

const SW: u64 = 1 << 6;

const W: u64 = 1 << 7;

const NW: u64 = 1 << 8;

const ALL: u64 = EQ | N | NE | E | SE | S | SW | W | NW;

// The composition table: a row for each first relation, an entry for each second one, in the order of the codes.
const TABLE: [Row<9>; 9] = [
    // eq
    Row {
        masks: [EQ, N, NE, E, SE, S, SW, W, NW],
    },
    // n
    Row {
        masks: [N, N, NE, NE, NE | E | SE, EQ | N | S, SW | W | NW, NW, NW],
    },
    // ne
    Row {
        masks: [
            NE,
            NE,
            NE,
            NE,
            NE | E | SE,
            NE | E | SE,
            ALL,
            N | NE | NW,
            N | NE | NW,
        ],
    },
    // e
    Row {
        masks: [E, NE, NE, E, SE, SE, SE | S | SW, EQ | E | W, N | NE | NW],
    },
    // se
    Row {
        masks: [
            SE,
            NE | E | SE,
            NE | E | SE,
            SE,
            SE,
            SE,
            SE | S | SW,
            SE | S | SW,
            ALL,
        ],
    },
    // s
    Row {
        masks: [S, EQ | N | S, NE | E | SE, SE, SE, S, SW, SW, SW | W | NW],
    },
    // sw
    Row {
        masks: [
            SW,
            SW | W | NW,
            ALL,
            SE | S | SW,
            SE | S | SW,
            SW,
            SW,
            SW,
            SW | W | NW,
        ],
    },
    // w
    Row {
        masks: [W, NW, N | NE | NW, EQ | E | W, SE | S | SW, SW, SW, W, NW],
    },
    // nw
    Row {
        masks: [
            NW,
            NW,
            N | NE | NW,
            N | NE | NW,
            ALL,
            SW | W | NW,
            SW | W | NW,
            NW,
            NW,
        ],
    },
];

const EASTWARD: Axis<1> = Axis {
    orders: [[Order {
        before: SW | W | NW,
        after: NE | E | SE,
    }]],
};

const NORTHWARD: Axis<1> = Axis {
    orders: [[Order {
        before: SE | S | SW,
        after: N | NE | NW,
    }]],
};

// The axis on which a dwelling has its mark to the east. A function, so that a contract says what the constant draws.
fn eastward() -> Axis<1>
    ensures { Draws result.orders 1 (compass.side 0) }
{
    EASTWARD
}

// The axis on which a dwelling has its mark to the north. A function, so that a contract says what the constant draws.
fn northward() -> Axis<1>
    ensures { Draws result.orders 1 (compass.side 1) }
{
    NORTHWARD
}

impl Kind for Dwellings {
    type Value = Dwelling;

    const CODES: u8 = 9;

    ghost meaning = { dwellings };

    ghost fit = { fit compass };

    ghost values = { dwelling };

    ghost lawful = { laws dwellings compass charted };

    ghost involutive = { Framed.involutive dwellings compass charted };

    ghost composes = { Framed.composes dwellings compass charted };

    ghost realises = { dwellings_realise };

    // In each kind: given in the trait, it would ask of every kind that its constant be the number that is meant.
    fn count() -> u8 {
        Self::CODES
    }

    fn relation(first: Dwelling, second: Dwelling) -> u8 {
        match (first.east.cmp(&second.east), first.north.cmp(&second.north)) {
            (Ordering::Equal, Ordering::Equal) => 0,
            (Ordering::Equal, Ordering::Greater) => 1,
            (Ordering::Greater, Ordering::Greater) => 2,
            (Ordering::Greater, Ordering::Equal) => 3,
            (Ordering::Greater, Ordering::Less) => 4,
            (Ordering::Equal, Ordering::Less) => 5,
            (Ordering::Less, Ordering::Less) => 6,
            (Ordering::Less, Ordering::Equal) => 7,
            (Ordering::Less, Ordering::Greater) => 8,
        }
    }

    fn converse(code: u8) -> u8 {
        match code {
            1..=4 => code + 4,
            5..=8 => code - 4,
            _ => code,
        }
    }

    fn fits(c: u8, d: u8, e: u8) -> bool {
        // The kind's own table: a body in the trait could name none without owing a table of every kind.
        contains(look_up(&TABLE, c, d), e)
    }

    fn value(items: u8, scenario: &[u8], item: u8) -> Dwelling {
        // Each field is a rank of its own.
        Dwelling {
            east: eastward().rank(items, scenario, item, 0),
            north: northward().rank(items, scenario, item, 0),
        }
    }
}

impl Scheme for Dwellings {
    ghost partition = { dwellings_partition };
}

impl Notation for Dwellings {
    ghost initial = { 68 };

    ghost words = { dwelling_words };

    ghost unambiguous = { Worded.unambiguous dwelling_words tt };

    // The byte of the format.
    fn letter() -> u8 {
        b'D'
    }

    // A `match` each way, as a code is a number and has no `Display` of its own.
    fn word<'a>(code: u8) -> &'a str {
        match code {
            0 => "eq",
            1 => "n",
            2 => "ne",
            3 => "e",
            4 => "se",
            5 => "s",
            6 => "sw",
            7 => "w",
            8 => "nw",
            _ => "",
        }
    }

    fn code(word: &[u8]) -> Option<u8> {
        match word {
            [b'e', b'q'] => Some(0),
            [b'n'] => Some(1),
            [b'n', b'e'] => Some(2),
            [b'e'] => Some(3),
            [b's', b'e'] => Some(4),
            [b's'] => Some(5),
            [b's', b'w'] => Some(6),
            [b'w'] => Some(7),
            [b'n', b'w'] => Some(8),
            _ => None,
        }
    }
}

impl WholeNotation for Dwellings {
    ghost worded = { refl };

    ghost written = { refl };

    ghost named = { Worded.named dwelling_words (Worded.unambiguous dwelling_words tt) };
}

/// The east number, a space, the north number. Nothing derives it: each type is printed in its own way.
impl fmt::Display for Dwelling {
    ghost output = { λ d. Some (decimal d.east ++ 32 ∷ decimal d.north) };

    fn fmt<W: fmt::Write>(&self, f: &mut fmt::Formatter<W>) -> fmt::Result {
        let Dwelling { east, north } = *self;
        write!(f, "{east} {north}")
    }
}
