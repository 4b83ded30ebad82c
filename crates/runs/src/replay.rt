// A script carried out, from any draft.
ghost use Rattle.std.specs.Prelude.{◌≡◌, IfOk};
ghost use Rattle.rules.specs.Soundness.{rules};
ghost use Rattle.runs.specs.Answers.{AnswersScript};
ghost use Rattle.runs.specs.Law.{Law};
ghost use Rattle.runs.specs.States.{draft_view};

use crate::answer::Answer;
use crate::call::Call;
use crate::carry::carry;
use crate::state::State;
use kinds::kind::Kind;
use sheets::held::Draft;
use std::alloc::{AllocError, Global};
use tallies::tally::{Joins, Tally};

/// Carries out a script from a draft, by the calls of the draft and of the closed sheet, and answers what each of them answered. A call
/// that the state does not take is not made, and its answer says so. Refused only for want of memory. Clauses name the rules part by part,
/// since no trait has both the kind and the tally.
pub fn replay<K: Kind, T: Tally>(
    heap: Global,
    draft: Draft<K, T>,
    script: &[Call],
) -> Result<Vec<Answer<K::Value, T::Cost>>, AllocError>
    ensures law { IfOk result (λ v. Law K.Kind.meaning (rules K.Kind.meaning K.Kind.fit T.Joins.joining T.Tally.order) (draft_view draft) script.now v.items) }
    ensures answers { IfOk result (λ v. AnswersScript K.Kind.meaning K.Kind.values (rules K.Kind.meaning K.Kind.fit T.Joins.joining T.Tally.order) (draft_view draft) script.now v.items) }
{
    let mut state = State::Drafting(draft);
    let mut answers = Vec::new(heap);
    for call in script {
        let (after, answer) = carry(heap, state, *call)?;
        state = after;
        answers.push(answer)?;
    }
    Ok(answers)
}
