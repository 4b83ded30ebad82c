// The tables of a search, with memory taken once.
ghost use Rattle.std.specs.Prelude.{◌≡◌, IfOk, vec_len, replicate};

use std::alloc::{AllocError, Global};

/// The tables that a search looks up and keeps, with memory taken once: the cost of each pair under each code, with 64 places to a pair,
/// the joins of the lower bounds of the pairs from each place on, and the costs of the prefixes at the cursor.
#[derive(Drop)]
pub struct Ledger<C> {
    // One flat list. `Vec<[C; 64]>` was tried, and its proof did not close: `resize` asks there that 64 costs fit in memory, and nothing
    // says how large a `C` is, so that `new` would have to ask it of its callers.
    pub(crate) prices: Vec<C>,
    pub(crate) owed: Vec<C>,
    pub(crate) spent: Vec<C>,
    ghost priced: { vec_len prices ≡ 4224 },
    ghost owing: { vec_len owed ≡ 67 },
    ghost spending: { vec_len spent ≡ 67 },
}

// A list of so many copies. `vec!` makes clones, of which nothing says for a type parameter that they equal the item; `resize` copies.
// `page_of` of `runs` fills a page by it too; to share the two lines would take a public call.
fn copies<C: Copy>(heap: Global, item: C, count: usize) -> Result<Vec<C>, AllocError>
    ensures { IfOk result (λ v. v.items ≡ replicate count item) }
{
    let mut list = Vec::new(heap);
    list.resize(count, item)?;
    Ok(list)
}

impl<C: Copy> Ledger<C> {
    /// Takes the memory of the tables, filled with one cost, or answers that there is none.
    pub fn new(heap: Global, empty: C) -> Result<Ledger<C>, AllocError>
        ensures prices { IfOk result (λ l. l.prices.items ≡ replicate 4224 empty) }
        ensures owed { IfOk result (λ l. l.owed.items ≡ replicate 67 empty) }
        ensures spent { IfOk result (λ l. l.spent.items ≡ replicate 67 empty) }
    {
        let prices = copies(heap, empty, 4224)?;
        let owed = copies(heap, empty, 67)?;
        let spent = copies(heap, empty, 67)?;
        Ok(Ledger {
            prices,
            owed,
            spent,
        })
    }
}
