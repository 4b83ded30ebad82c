// A row read as a statement.
ghost use Rattle.std.specs.Prelude.{◌≡◌, true, false, MatchOption};
ghost use Rattle.rules.specs.Properly.{row_proper};
ghost use Rattle.statements.specs.Drafts.{Says};

use crate::statement::Statement;
use rules::row::Row;

/// What a row says, as a statement: there is one exactly where the lower item comes first, both items counted from 1 fit a byte, the
/// weight is 1 to 1,000 and the person is 1 to 20. It is no `TryFrom`, which would want an error type, and there is nothing to tell
/// beyond that there is none.
pub fn statement_of(row: &Row) -> Option<Statement>
    ensures { MatchOption result (row_proper 255 row.now ≡ false) (λ s. (row_proper 255 row.now ≡ true) × Says s row.now) }
{
    if !row.is_proper(255) {
        return None;
    }
    Some(Statement {
        first: row.low + 1,
        second: row.high + 1,
        set: row.set,
        weight: row.weight,
        person: row.person,
        sworn: row.sworn,
    })
}
