// The kind M: moments, with the base relations of the point algebra.
#![tactic(auto)]

ghost use Rattle.std.specs.Prelude.{Some, refl};
ghost use Rattle.std.specs.Fmt.{decimal};
ghost use Rattle.points.specs.Marks.{Draws};
ghost use Rattle.kinds.specs.Layouts.{fit};
ghost use Rattle.moments.specs.Moments.{moment_words, moments, line as line_layout, moment};
ghost use Rattle.kinds.proofs.Framed.{laws};
ghost use Rattle.moments.specs.Timed.{timed, moments_partition, moments_realise};
ghost use Rattle.kinds.proofs.Framed;
ghost use Rattle.kinds.proofs.Worded;

use kinds::kind::{Kind, Scheme};
use kinds::notation::{Notation, WholeNotation};
use kinds::table::{Row, look_up};
use points::axis::{Axis, Order};
use points::set::contains;
use std::cmp::Ordering;
use std::fmt;

/// A point in time, by a whole number.
#[derive(Clone, Copy)]
pub struct Moment {
    pub at: u32,
}

/// The kind of moments.
pub struct Moments;

// The base relations = < > as sets of one.
const EQ: u64 = 1 << 0;

const LT: u64 = 1 << 1;

const GT: u64 = 1 << 2;

// The composition table: a row for each first relation, a set for each second one, in the order of the codes.
const TABLE: [Row<3>; 3] = [
    Row {
        masks: [EQ, LT, GT],
    },
    Row {
        masks: [LT, LT, EQ | LT | GT],
    },
    Row {
        masks: [GT, EQ | LT | GT, GT],
    },
];

const LINE: Axis<1> = Axis {
    orders: [[Order {
        before: LT,
        after: GT,
    }]],
};

// The axis on which a moment has its mark. A function, so that a contract says what the constant draws.
fn line() -> Axis<1>
    ensures { Draws result.orders 1 (line_layout.side 0) }
{
    LINE
}

impl Kind for Moments {
    type Value = Moment;

    const CODES: u8 = 3;

    ghost meaning = { moments };

    ghost fit = { fit line_layout };

    ghost values = { moment };

    ghost lawful = { laws moments line_layout timed };

    ghost involutive = { Framed.involutive moments line_layout timed };

    ghost composes = { Framed.composes moments line_layout timed };

    ghost realises = { moments_realise };

    // In each kind: given in the trait, it would ask of every kind that its constant be the number that is meant.
    fn count() -> u8 {
        Self::CODES
    }

    fn relation(first: Moment, second: Moment) -> u8 {
        match first.at.cmp(&second.at) {
            Ordering::Equal => 0,
            Ordering::Less => 1,
            Ordering::Greater => 2,
        }
    }

    fn converse(code: u8) -> u8 {
        match code {
            1 => 2,
            2 => 1,
            _ => code,
        }
    }

    fn fits(c: u8, d: u8, e: u8) -> bool {
        // The kind's own table: a body in the trait could name none without owing a table of every kind.
        contains(look_up(&TABLE, c, d), e)
    }

    fn value(items: u8, scenario: &[u8], item: u8) -> Moment {
        Moment {
            at: line().rank(items, scenario, item, 0),
        }
    }
}

impl Scheme for Moments {
    ghost partition = { moments_partition };
}

impl Notation for Moments {
    ghost initial = { 77 };

    ghost words = { moment_words };

    ghost unambiguous = { Worded.unambiguous moment_words tt };

    // The byte of the format.
    fn letter() -> u8 {
        b'M'
    }

    // A `match` each way, as a code is a number and has no `Display` of its own.
    fn word<'a>(code: u8) -> &'a str {
        match code {
            0 => "=",
            1 => "<",
            2 => ">",
            _ => "",
        }
    }

    fn code(word: &[u8]) -> Option<u8> {
        match word {
            [b'='] => Some(0),
            [b'<'] => Some(1),
            [b'>'] => Some(2),
            _ => None,
        }
    }
}

impl WholeNotation for Moments {
    ghost worded = { refl };

    ghost written = { refl };

    ghost named = { Worded.named moment_words (Worded.unambiguous moment_words tt) };
}

/// The number. Nothing derives it: each type is printed in its own way.
impl fmt::Display for Moment {
    ghost output = { λ m. Some (decimal m.at) };

    fn fmt<W: fmt::Write>(&self, f: &mut fmt::Formatter<W>) -> fmt::Result {
        let at = self.at;
        write!(f, "{at}")
    }
}
