// A closed sheet as the code holds it.
ghost use Rattle.std.specs.Prelude.{◌≡◌, ◌≤◌, true, vec_capacity};
ghost use Rattle.std.specs.Option.{ForSome};
ghost use Rattle.points.specs.Scenarios.{pairs};
ghost use Rattle.rules.specs.Properly.{proper};
ghost use Rattle.search.specs.Sheets.{Holds};

use rules::row::Row;

/// A closed sheet: a number of items and rows, the number of codes, and where its search stands: the incumbent, and the scenario at the
/// cursor, which is none once the search has passed the last. The two have a code for each pair of items, at the front of their arrays,
/// which have 66 places, as 12 items have 66 pairs: so closing and searching ask for no memory. Items and rows stand one by one, as in a
/// draft: a sheet is closed with any parts or refused, and a type for the two would ask more of whoever closes it.
#[derive(Drop)]
pub struct Sheet {
    pub(crate) items: u8,
    pub(crate) rows: Vec<Row>,
    pub(crate) codes: u8,
    pub(crate) incumbent: [u8; 66],
    pub(crate) cursor: Option<[u8; 66]>,
    ghost some: { 1 ≤ items },
    ghost few: { items ≤ 12 },
    ghost fits: { pairs items ≤ 66 },
    ghost room: { 256 ≤ vec_capacity rows },
    ghost sound: { proper items rows.items ≡ true },
    ghost coded: { 1 ≤ codes },
    ghost narrow: { codes ≤ 64 },
    ghost held: { Holds codes (pairs items) incumbent },
    ghost marked: { ForSome cursor (Holds codes (pairs items)) },
}
