// What is shown and charged among the answers of a run.
ghost use Rattle.std.specs.Prelude.{◌≡◌, IfOk};
ghost use Rattle.std.specs.Option.{option_copied};
ghost use Rattle.reports.specs.Found.{first_sight as first_of_sights, IsFirstSight, charges_in as charges_among};

use runs::answer::{Answer, Sight};
use std::alloc::{AllocError, Global};

/// What is shown first, if anything is.
pub fn first_sight<V, C>(answers: &[Answer<V, C>]) -> Option<&Sight<V, C>>
    ensures stands { IsFirstSight answers.now (option_copied result) }
    ensures is { option_copied result ≡ first_of_sights answers.now }
{
    answers.iter().find_map(Answer::sight)
}

/// The charges, in their order.
pub fn charges_in<V, C: Copy>(heap: Global, answers: &[Answer<V, C>]) -> Result<Vec<C>, AllocError>
    ensures { IfOk result (λ v. v.items ≡ charges_among answers.now) }
{
    answers.iter().filter_map(Answer::charge).collect(heap)
}
