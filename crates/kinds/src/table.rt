// Composition tables.
ghost use Rattle.std.specs.Prelude.{◌≡◌};
ghost use Rattle.kinds.specs.Tables.{entry};

/// One row of a composition table: for a first base relation, the set of base relations for each second one, in the order of the
/// codes.
#[derive(Clone, Copy)]
pub struct Row<const CODES: usize> {
    pub masks: [u64; CODES],
}

/// The set of base relations that a table has for c and d; empty where one is no code.
pub fn look_up<const CODES: usize>(table: &[Row<CODES>; CODES], c: u8, d: u8) -> u64
    ensures { result ≡ entry table.now c d }
{
    // A match: a chain with a closure was tried, and its proof did not close, since in code over a const parameter nothing is known of
    // what a closure answers.
    match table.get(usize::from(c)) {
        Some(row) => row.masks.get(usize::from(d)).copied().unwrap_or(0),
        None => 0,
    }
}
