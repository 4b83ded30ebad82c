// Shows on a page of their own.
ghost use Rattle.std.specs.Prelude.{◌≡◌, IfOk, [], length, replicate};
ghost use Rattle.rules.specs.Soundness.{rules};
ghost use Rattle.search.specs.Closed.{rows_of, position_of};
ghost use Rattle.runs.specs.Answers.{Showing};
ghost use Rattle.runs.specs.States.{told};

use crate::answer::{Answer, Sight};
use kinds::kind::Kind;
use sheets::closed::Closed;
use statements::fault::Fault;
use std::alloc::{AllocError, Global};
use tallies::tally::{Joins, Tally};

// A page of so many places, each with the value of the first of no items.
pub(crate) fn page_of<K: Kind>(heap: Global, places: u8) -> Result<Vec<K::Value>, AllocError>
    ensures { IfOk result (λ v. v.items ≡ replicate places (K.Kind.values 0 [] 0)) }
{
    let scenario: [u8; 0] = [];
    let value = K::value(0, &scenario, 0);
    // Filled by `resize`, which copies: `vec!` clones, and a clone need not be its source. `copies` of `search` does so too; to share the
    // two lines would take a public call.
    let mut page = Vec::new(heap);
    page.resize(usize::from(places), value)?;
    Ok(page)
}

// Shows a closed sheet on a page. Clauses name the rules part by part, as at `told_by_draft`.
pub(crate) fn show_on<K: Kind, T: Tally>(
    closed: &Closed<K, T>,
    page: Vec<K::Value>,
) -> Result<Answer<K::Value, T::Cost>, Fault>
    ensures { Showing K.Kind.meaning K.Kind.values (rules K.Kind.meaning K.Kind.fit T.Joins.joining T.Tally.order) closed.now.sheet.items (rows_of closed.now.sheet) (position_of closed.now.sheet) (length page.items) (told result) }
{
    let mut values = page;
    let shown = closed.show(values.as_mut_slice())?;
    values.truncate(usize::from(closed.items()));
    Ok(Answer::Shown(Sight { values, shown }))
}
