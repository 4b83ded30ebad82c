// The published tables of the three kinds, all held against ours.
ghost use Rattle.std.specs.Prelude.{◌≡◌, ◌↔◌, codes, List, IfOk, MatchOption};
ghost use Rattle.std.specs.Io.KnownBytes.{Appends};
ghost use Rattle.dwellings.specs.Dwellings.{dwellings, dwelling_words};
ghost use Rattle.literature.specs.Held.{ChartHeld, Entry, differing, joined, table_lines};
ghost use Rattle.literature.specs.Literature.{HeldTables, LiteratureAgrees, LiteratureComplete, LiteratureHeld, literature_differs, literature_lines};
ghost use Rattle.literature.specs.Published.{ChartAgrees, Complete, ComposesByParts, UncomposedByParts};

use crate::algebra::single;
use crate::comparison::{Comparison, Table, hold_compositions, hold_converses, hold_identity};
use crate::letters::Letters;
use crate::published::{
    DIRECTION_CONVERSES, DIRECTION_LETTERS, DIRECTIONS, Direction, INTERVAL_CONVERSES,
    INTERVAL_LETTERS, POINT_COMPOSITIONS, POINT_CONVERSES, POINT_LETTERS, Turned,
};
use crate::score::total;
use crate::transitivity::{ALLEN_COMPOSITIONS, ALLEN_IDENTITY, ALLEN_LETTERS};
use dwellings::Dwellings;
use moments::Moments;
use points::set::contains;
use spells::Spells;
use std::io::Write;

/// What is published of the cardinal directions: their letters, the directions by their parts, and the table by which parts compose.
#[derive(Clone, Copy)]
pub struct Chart<'a> {
    pub letters: Letters<'a>,
    pub directions: &'a [Direction],
    pub points: Table<'a>,
}

/// The published composition of two directions: those whose two parts are each in the composition of the parts.
fn composed_directions(chart: Chart, first: &Direction, second: &Direction) -> Option<u64>
    ensures { MatchOption result (UncomposedByParts chart.entry first.now second.now) (λ set. ComposesByParts chart.entry first.now second.now set) }
{
    let points = chart.points;
    let east = points.composition::<Moments>(first.eastward, second.eastward)?;
    let north = points.composition::<Moments>(first.northward, second.northward)?;
    let mut found = 0;
    for direction in chart.directions {
        let eastward = points.letters.code::<Moments>(direction.eastward)?;
        let northward = points.letters.code::<Moments>(direction.northward)?;
        if contains(east, eastward) && contains(north, northward) {
            found |= chart.letters.set::<Dwellings>(direction.letter)?;
        }
    }
    Some(found)
}

/// Holds the published compositions of the cardinal directions against ours.
fn hold_directions<W: Write>(out: &mut W, chart: Chart) -> anyhow::Result<u32>
    ensures agree { IfOk result (λ differing. (differing ≡ 0) ↔ ChartAgrees chart.entry) }
    ensures complete { IfOk result (λ _. Complete dwellings dwelling_words chart.entry.letters.0.now 0 (λ direction. direction.letter.now) chart.entry.directions.now) }
    ensures printed { IfOk result (λ differ. (held : List (List Entry)) × ChartHeld chart.entry held × (differ ≡ differing (joined held)) × Appends (W.contents out.old) (W.contents out.new) (table_lines dwelling_words 68 (codes "composition") (joined held))) }
{
    let mut comparison = Comparison::default();
    for first in chart.directions {
        let r = comparison.meet::<Dwellings>(chart.letters, first.letter)?;
        for second in chart.directions {
            let s = chart.letters.read::<Dwellings>(second.letter)?;
            let published = composed_directions(chart, first, second);
            comparison.hold_composition::<Dwellings, W>(out, (r, s), published)?;
        }
    }
    comparison.close::<Dwellings, W>(out, "composition")
}

/// What is published of the three kinds.
#[derive(Clone, Copy)]
pub struct Literature<'a> {
    pub points: Table<'a>,
    pub point_converses: &'a [Turned],
    pub intervals: Table<'a>,
    /// The letter of the identity of intervals, which their table leaves out.
    pub identity: &'a str,
    pub interval_letters: Letters<'a>,
    pub interval_converses: &'a [Turned],
    pub chart: Chart<'a>,
    pub direction_converses: &'a [Turned],
}

/// The published tables that we have. They are statics with references in them, which no clause can name.
pub fn published_tables() -> Literature<'static> {
    let points = Table {
        letters: Letters(&POINT_LETTERS),
        rows: &POINT_COMPOSITIONS,
    };
    Literature {
        points,
        point_converses: &POINT_CONVERSES,
        intervals: Table {
            letters: Letters(&ALLEN_LETTERS),
            rows: &ALLEN_COMPOSITIONS,
        },
        identity: ALLEN_IDENTITY,
        interval_letters: Letters(&INTERVAL_LETTERS),
        interval_converses: &INTERVAL_CONVERSES,
        chart: Chart {
            letters: Letters(&DIRECTION_LETTERS),
            directions: &DIRECTIONS,
            points,
        },
        direction_converses: &DIRECTION_CONVERSES,
    }
}

/// Holds our tables against all published ones; how many entries differ.
pub(crate) fn hold_all<W: Write>(out: &mut W, literature: Literature) -> anyhow::Result<u32>
    ensures agree { IfOk result (λ differing. (differing ≡ 0) ↔ LiteratureAgrees literature.entry) }
    ensures complete { IfOk result (λ _. LiteratureComplete literature.entry) }
    ensures printed { IfOk result (λ differ. (held : HeldTables) × LiteratureHeld literature.entry held × (differ ≡ literature_differs held) × Appends (W.contents out.old) (W.contents out.new) (literature_lines held)) }
{
    let points = literature.points;
    let intervals = literature.intervals;
    let chart = literature.chart;
    let identity = intervals.letters.read::<Spells>(literature.identity)?;
    Ok(total(&[
        hold_converses::<Moments, W>(out, points.letters, literature.point_converses)?,
        hold_compositions::<Moments, W>(out, points, 0)?,
        hold_converses::<Spells, W>(
            out,
            literature.interval_letters,
            literature.interval_converses,
        )?,
        hold_compositions::<Spells, W>(out, intervals, single(identity))?,
        hold_identity::<Spells, W>(out, intervals, identity, literature.identity)?,
        hold_converses::<Dwellings, W>(out, chart.letters, literature.direction_converses)?,
        hold_directions(out, chart)?,
    ]))
}
