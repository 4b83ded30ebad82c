// The composition of spells, and the axis of their ends.
ghost use Rattle.points.specs.Marks.{Draws};
ghost use Rattle.spells.specs.Spells.{timeline as timeline_layout};

use kinds::table::Row;
use points::axis::{Axis, Order};

// The base relations as sets of one.
const EQ: u64 = 1 << 0;

const P: u64 = 1 << 1;

const PI: u64 = 1 << 2;

const M: u64 = 1 << 3;

const MI: u64 = 1 << 4;

const O: u64 = 1 << 5;

const OI: u64 = 1 << 6;

const S: u64 = 1 << 7;

const SI: u64 = 1 << 8;

const D: u64 = 1 << 9;

const DI: u64 = 1 << 10;

const F: u64 = 1 << 11;

const FI: u64 = 1 << 12;

const ALL: u64 = EQ | P | PI | M | MI | O | OI | S | SI | D | DI | F | FI;

// The composition table: a row for each first relation, a set for each second one, in the order of the codes.
pub const TABLE: [Row<13>; 13] = [
    // eq
    Row {
        masks: [EQ, P, PI, M, MI, O, OI, S, SI, D, DI, F, FI],
    },
    // p
    Row {
        masks: [
            P,
            P,
            ALL,
            P,
            P | M | O | S | D,
            P,
            P | M | O | S | D,
            P,
            P,
            P | M | O | S | D,
            P,
            P | M | O | S | D,
            P,
        ],
    },
    // pi
    Row {
        masks: [
            PI,
            ALL,
            PI,
            PI | MI | OI | D | F,
            PI,
            PI | MI | OI | D | F,
            PI,
            PI | MI | OI | D | F,
            PI,
            PI | MI | OI | D | F,
            PI,
            PI,
            PI,
        ],
    },
    // m
    Row {
        masks: [
            M,
            P,
            PI | MI | OI | SI | DI,
            P,
            EQ | F | FI,
            P,
            O | S | D,
            M,
            M,
            O | S | D,
            P,
            O | S | D,
            P,
        ],
    },
    // mi
    Row {
        masks: [
            MI,
            P | M | O | DI | FI,
            PI,
            EQ | S | SI,
            PI,
            OI | D | F,
            PI,
            OI | D | F,
            PI,
            OI | D | F,
            PI,
            MI,
            MI,
        ],
    },
    // o
    Row {
        masks: [
            O,
            P,
            PI | MI | OI | SI | DI,
            P,
            OI | SI | DI,
            P | M | O,
            EQ | O | OI | S | SI | D | DI | F | FI,
            O,
            O | DI | FI,
            O | S | D,
            P | M | O | DI | FI,
            O | S | D,
            P | M | O,
        ],
    },
    // oi
    Row {
        masks: [
            OI,
            P | M | O | DI | FI,
            PI,
            O | DI | FI,
            PI,
            EQ | O | OI | S | SI | D | DI | F | FI,
            PI | MI | OI,
            OI | D | F,
            PI | MI | OI,
            OI | D | F,
            PI | MI | OI | SI | DI,
            OI,
            OI | SI | DI,
        ],
    },
    // s
    Row {
        masks: [
            S,
            P,
            PI,
            P,
            MI,
            P | M | O,
            OI | D | F,
            S,
            EQ | S | SI,
            D,
            P | M | O | DI | FI,
            D,
            P | M | O,
        ],
    },
    // si
    Row {
        masks: [
            SI,
            P | M | O | DI | FI,
            PI,
            O | DI | FI,
            MI,
            O | DI | FI,
            OI,
            EQ | S | SI,
            SI,
            OI | D | F,
            DI,
            OI,
            DI,
        ],
    },
    // d
    Row {
        masks: [
            D,
            P,
            PI,
            P,
            PI,
            P | M | O | S | D,
            PI | MI | OI | D | F,
            D,
            PI | MI | OI | D | F,
            D,
            ALL,
            D,
            P | M | O | S | D,
        ],
    },
    // di
    Row {
        masks: [
            DI,
            P | M | O | DI | FI,
            PI | MI | OI | SI | DI,
            O | DI | FI,
            OI | SI | DI,
            O | DI | FI,
            OI | SI | DI,
            O | DI | FI,
            DI,
            EQ | O | OI | S | SI | D | DI | F | FI,
            DI,
            OI | SI | DI,
            DI,
        ],
    },
    // f
    Row {
        masks: [
            F,
            P,
            PI,
            M,
            PI,
            O | S | D,
            PI | MI | OI,
            D,
            PI | MI | OI,
            D,
            PI | MI | OI | SI | DI,
            F,
            EQ | F | FI,
        ],
    },
    // fi
    Row {
        masks: [
            FI,
            P,
            PI | MI | OI | SI | DI,
            M,
            OI | SI | DI,
            O,
            OI | SI | DI,
            O,
            DI,
            O | S | D,
            DI,
            EQ | F | FI,
            FI,
        ],
    },
];

// The axis of the ends: mark 0 is the start, mark 1 the end.
const TIMELINE: Axis<2> = Axis {
    orders: [
        [
            Order {
                before: P | M | O | DI | FI,
                after: PI | MI | OI | D | F,
            },
            Order {
                before: EQ | P | M | O | OI | S | SI | D | DI | F | FI,
                after: PI,
            },
        ],
        [
            Order {
                before: P,
                after: EQ | PI | MI | O | OI | S | SI | D | DI | F | FI,
            },
            Order {
                before: P | M | O | S | D,
                after: PI | MI | OI | SI | DI,
            },
        ],
    ],
};

/// The axis on which spells have their start and their end. A function, so that a contract says what the constant draws.
pub fn timeline() -> Axis<2>
    ensures { Draws result.orders 2 (timeline_layout.side 0) }
{
    TIMELINE
}
