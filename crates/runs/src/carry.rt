// One call of a script, carried out by the call of the draft or of the closed sheet.
ghost use Rattle.std.specs.Prelude.{◌≡◌, ℕ, Ok, IfOk};
ghost use Rattle.rules.specs.Soundness.{rules};
ghost use Rattle.runs.specs.Models.{Model};
ghost use Rattle.runs.specs.declared.answer.Answer.TheVariants.{Unmade};
ghost use Rattle.runs.specs.declared.call.Call.TheVariants.{Close, Search, Charge};
ghost use Rattle.runs.specs.declared.state.State.TheVariants.{Drafting, Closing};
ghost use Rattle.runs.specs.States.{draft_view, closed_view, Views, told, Carries};

use crate::answer::Answer;
use crate::call::Call;
use crate::page::{page_of, show_on};
use crate::state::State;
use kinds::kind::Kind;
use sheets::closed::Closed;
use sheets::held::Draft;
use statements::entry::Entry;
use statements::fault::Fault;
use std::alloc::{AllocError, Global};
use tallies::tally::{Joins, Tally};

// What a call answers: a refusal says by which fault.
fn answer_of<V, C>(answered: Result<Answer<V, C>, Fault>) -> Answer<V, C>
    ensures { result ≡ told answered }
{
    match answered {
        Ok(answer) => answer,
        Err(fault) => Answer::Refused(fault),
    }
}

// A call of a draft, but for the one that closes it, which is not made here: a `match`, as each call has its own answer. Clauses name the
// rules by `rules ..` each time, since no trait has both the kind and the tally.
fn told_by_draft<K: Kind, T: Tally>(
    draft: &mut Draft<K, T>,
    call: Call,
) -> Result<Answer<K::Value, T::Cost>, Fault>
    ensures carries { (call ≡ Close → ⊥) → Carries K.Kind.meaning K.Kind.values (rules K.Kind.meaning K.Kind.fit T.Joins.joining T.Tally.order) (draft_view draft.old) call (Drafting draft.new) (told result) }
    ensures unmade { call ≡ Close → (result ≡ Ok Unmade) × (draft.new ≡ draft.old) }
{
    Ok(match call {
        Call::Size(items) => {
            draft.size(items)?;
            Answer::Done
        }
        Call::Enter(entry) => Answer::Entered(draft.enter(entry)?),
        Call::Strike(number) => {
            draft.strike(number)?;
            Answer::Done
        }
        Call::Reweigh(number, weight) => {
            draft.reweigh(number, weight)?;
            Answer::Done
        }
        Call::Look(number) => {
            let (statement, struck) = draft.look(number)?;
            Answer::Looked(Entry::from(statement), struck)
        }
        Call::Close | Call::Search(_) | Call::Show(_) | Call::Charge(_) | Call::Reopen =>
            Answer::Unmade,
    })
}

// A call of a draft. Closing one takes it, so that it stands apart from the others.
fn on_draft<K: Kind, T: Tally>(
    draft: Draft<K, T>,
    call: Call,
) -> (State<K, T>, Answer<K::Value, T::Cost>)
    ensures { Carries K.Kind.meaning K.Kind.values (rules K.Kind.meaning K.Kind.fit T.Joins.joining T.Tally.order) (draft_view draft) call result.0 result.1 }
{
    match call {
        Call::Close => (State::Closing(draft.close()), Answer::Done),
        _ => {
            let mut draft = draft;
            let answered = told_by_draft(&mut draft, call);
            (State::Drafting(draft), answer_of(answered))
        }
    }
}

// A search of a closed sheet. One line, as the next: each makes another call, and shared they would be a closure for it and a clause.
fn told_by_search<K: Kind, T: Tally>(
    closed: &mut Closed<K, T>,
    steps: u32,
) -> Result<Answer<K::Value, T::Cost>, Fault>
    ensures { (taken asked : ℕ) → Carries K.Kind.meaning K.Kind.values (rules K.Kind.meaning K.Kind.fit T.Joins.joining T.Tally.order) (closed_view closed.old taken asked) (Search steps) (Closing closed.new) (told result) }
{
    Ok(Answer::Took(closed.search(steps)?))
}

// A charge of a closed sheet.
fn told_by_charge<K: Kind, T: Tally>(
    closed: &Closed<K, T>,
    person: u32,
) -> Result<Answer<K::Value, T::Cost>, Fault>
    ensures { (taken asked : ℕ) → Carries K.Kind.meaning K.Kind.values (rules K.Kind.meaning K.Kind.fit T.Joins.joining T.Tally.order) (closed_view closed.now taken asked) (Charge person) (Closing closed.now) (told result) }
{
    Ok(Answer::Charged(closed.charge(person)?))
}

// A call of a closed sheet: a `match`, as each call has its own answer.
fn on_closed<K: Kind, T: Tally>(
    heap: Global,
    closed: Closed<K, T>,
    call: Call,
) -> Result<(State<K, T>, Answer<K::Value, T::Cost>), AllocError>
    ensures { IfOk result (λ p. (steps asked : ℕ) → Carries K.Kind.meaning K.Kind.values (rules K.Kind.meaning K.Kind.fit T.Joins.joining T.Tally.order) (closed_view closed steps asked) call p.0 p.1) }
{
    let mut closed = closed;
    let answered = match call {
        Call::Search(steps) => told_by_search(&mut closed, steps),
        Call::Show(places) => show_on(&closed, page_of::<K>(heap, places)?),
        Call::Charge(person) => told_by_charge(&closed, person),
        Call::Reopen => return Ok((State::Drafting(closed.reopen()), Answer::Done)),
        Call::Size(_)
        | Call::Enter(_)
        | Call::Strike(_)
        | Call::Reweigh(_, _)
        | Call::Look(_)
        | Call::Close => Ok(Answer::Unmade),
    };
    Ok((State::Closing(closed), answer_of(answered)))
}

// A call of a run, where the state stands for a model: a draft and a closed sheet are two types, with other calls each.
pub(crate) fn carry<K: Kind, T: Tally>(
    heap: Global,
    state: State<K, T>,
    call: Call,
) -> Result<(State<K, T>, Answer<K::Value, T::Cost>), AllocError>
    ensures { IfOk result (λ p. (x : Model) → Views state x → Carries K.Kind.meaning K.Kind.values (rules K.Kind.meaning K.Kind.fit T.Joins.joining T.Tally.order) x call p.0 p.1) }
{
    match state {
        State::Drafting(draft) => Ok(on_draft(draft, call)),
        State::Closing(closed) => on_closed(heap, closed, call),
    }
}
