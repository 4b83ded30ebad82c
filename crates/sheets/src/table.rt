// The list of rows of a draft.
ghost use Rattle.std.specs.Prelude.{◌≡◌, ℕ, ◌<◌, vec_len, slice_index_or};
ghost use Rattle.std.specs.Borrow.{sem, follows};
ghost use Rattle.std.specs.Vec.{with_item};
ghost use Rattle.std.specs.contracts.vec.Vec.{the_row as vec_type};
ghost use Rattle.std.specs.contracts.alloc.Global.{the_row as heap_type};
ghost use Rattle.std.specs.contracts.impls.GlobalAllocator.TheImpl.{ghosts as heap_allocates};
ghost use Rattle.rules.specs.contracts.row.Row.{the_row as row_type};

use rules::row::Row;

/// A table of rows that lends them one at a time, by a rule of the project: a draft, whose type says what holds of its rows, lends none
/// of itself.
pub(crate) trait Table {
    /// How many rows there are.
    ghost many: { Self → ℕ };

    /// Lends one row.
    fn entry_mut(&mut self, i: usize) -> &mut Row
        requires { i < many self.old };
}

impl Table for Vec<Row> {
    ghost many = { λ v. vec_len v };

    /// When the row comes back, the list is as it was but for that row.
    fn entry_mut(&mut self, i: usize) -> &mut Row
        requires { i < vec_len self.old }
        ensures* lent { sem 𝓛 (follows (vec_type row_type heap_type heap_allocates) row_type self.entry.ghost_name result.ghost_name (with_item self.old i)) }
        ensures value { result.now ≡ slice_index_or self.old.items i result.now }
    {
        &mut self[i]
    }
}
