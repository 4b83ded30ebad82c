// The cursor of a search: how it moves past a prefix.
ghost use Rattle.std.specs.Prelude.{◌≡◌, ◌-◌, ◌^◌, ◌<◌, ◌≤◌, length, take, IfSome, IfNone};
ghost use Rattle.rules.specs.Orders.{Below, index, past};
ghost use Rattle.search.specs.Sheets.{Blank};

// Moves the cursor past all scenarios that share its first `shared` codes: the length of the prefix that ends with the code that rose, or
// none if there is no scenario after them. Before the call the codes from `filled` on are 0, and after it all those behind the code that
// rose; so no more than these are written.
pub(crate) fn rise(cursor: &mut [u8], codes: u8, shared: usize, filled: usize) -> Option<usize>
    requires coded { (1 ≤ codes) × (codes ≤ 64) }
    requires within { (shared ≤ length cursor.old) × (filled ≤ length cursor.old) }
    requires blank { Blank filled cursor.old }
    requires low { Below codes cursor.old }
    ensures moved { IfSome result (λ q. index codes cursor.new ≡ past codes (length cursor.old) shared (index codes cursor.old)) }
    ensures ended { IfNone result (past codes (length cursor.old) shared (index codes cursor.old) ≡ codes ^ length cursor.old) }
    ensures low { Below codes cursor.new }
    ensures within { IfSome result (λ q. (0 < q) × (q ≤ shared)) }
    ensures shares { IfSome result (λ q. take (q - 1) cursor.new ≡ take (q - 1) cursor.old) }
    ensures blank { IfSome result (λ q. Blank q cursor.new) }
{
    // A loop over places. `for (i, code) in cursor[..count].iter_mut().enumerate().rev()` was tried, and its proof did not close: after a
    // loop that an adapter like `rev` runs, a proof knows the length of a slice that was written by `iter_mut`, and none of its items.
    for i in (0..shared.max(filled)).rev() {
        if i < shared && cursor[i] + 1 < codes {
            cursor[i] += 1;
            return Some(i + 1);
        }
        cursor[i] = 0;
    }
    None
}
