// The parts of a closed sheet: how it is made from them, how they are read and given back.
ghost use Rattle.std.specs.Prelude.{◌≡◌, ◌≤◌, true, is_ok, IfOk, IfErr, vec_capacity};
ghost use Rattle.std.specs.Option.{ForSome};
ghost use Rattle.rules.specs.Properly.{all_proper, proper};
ghost use Rattle.rules.specs.Steps.{opening};
ghost use Rattle.search.specs.Sheets.{Holds, number_at};
ghost use Rattle.search.specs.Closed.{rows_of, incumbent_of, position_of, closes, is_finished};

use crate::sheet::Sheet;
use points::scenario::pairs;
use rules::row::Row;

// Whether all rows are those of a sheet with so many items.
fn all_are_proper(rows: &[Row], items: u8) -> bool
    ensures { result ≡ all_proper items rows.now }
{
    rows.iter().all(|row| row.is_proper(items))
}

// Whether a sheet can be closed with these parts.
fn can_close(items: u8, rows: &Vec<Row>, codes: u8) -> bool
    ensures { result ≡ closes items rows.now codes }
{
    let sized = (1..=12).contains(&items) && (1..=64).contains(&codes);
    let listed = rows.capacity() >= 256 && rows.len() <= 256;
    sized && listed && all_are_proper(rows.as_slice(), items)
}

// The scenario numbered 1 of so many pairs, if there is one.
fn second_scenario(count: usize, codes: u8) -> Option<[u8; 66]>
    requires few { count ≤ 66 }
    requires coded { 1 ≤ codes }
    ensures holds { ForSome result (Holds codes count) }
    ensures number { number_at codes count result ≡ 1 }
{
    if count == 0 || codes == 1 {
        return None;
    }
    let mut cursor = [0; 66];
    cursor[count - 1] = 1;
    Some(cursor)
}

impl Sheet {
    /// Closes a sheet: 1 to 12 items, at most 256 proper rows with room for 256, and 1 to 64 codes. Its search is at the opening: the
    /// scenario of all zeros is the incumbent, and the cursor is at the next. Other parts are refused, and the rows are given back.
    pub fn closing(items: u8, rows: Vec<Row>, codes: u8) -> Result<Sheet, Vec<Row>>
        ensures test { is_ok result ≡ closes items rows codes }
        ensures opens { IfOk result (λ s. position_of s ≡ opening items) }
        ensures parts { IfOk result (λ s. (s.items ≡ items) × (s.rows ≡ rows) × (s.codes ≡ codes)) }
        ensures back { IfErr result (λ v. v ≡ rows) }
    {
        if !can_close(items, &rows, codes) {
            return Err(rows);
        }
        let cursor = second_scenario(pairs(items), codes);
        Ok(Sheet {
            items,
            rows,
            codes,
            incumbent: [0; 66],
            cursor,
        })
    }

    /// Gives the items and the rows back, with what is known of them.
    pub fn reopened(self) -> (u8, Vec<Row>)
        ensures parts { (result.0 ≡ self.items) × (result.1 ≡ self.rows) }
        ensures sized { (1 ≤ result.0) × (result.0 ≤ 12) }
        ensures sound { (256 ≤ vec_capacity result.1) × (proper result.0 result.1.items ≡ true) }
    {
        let Sheet {
            items,
            rows,
            codes: _,
            incumbent: _,
            cursor: _,
        } = self;
        (items, rows)
    }

    /// The number of items.
    pub fn items(&self) -> u8
        ensures { result ≡ self.now.items }
    {
        self.items
    }

    /// The rows.
    pub fn rows(&self) -> &[Row]
        ensures { result.now ≡ rows_of self.now }
    {
        self.rows.as_slice()
    }

    /// The incumbent: a code for each pair.
    pub fn incumbent(&self) -> &[u8]
        ensures { result.now ≡ incumbent_of self.now }
    {
        &self.incumbent[0..pairs(self.items)]
    }

    /// Whether the cursor has passed the last scenario.
    pub fn finished(&self) -> bool
        ensures { result ≡ is_finished self.now }
    {
        self.cursor.is_none()
    }
}
