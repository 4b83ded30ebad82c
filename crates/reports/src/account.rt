// Accounts: a sheet is settled, and the report of it is written.
ghost use Rattle.std.specs.Prelude.{◌≡◌, ◌≤◌, IfOk};
ghost use Rattle.rules.specs.Soundness.{rules};
ghost use Rattle.rules.specs.Steps.{searched};
ghost use Rattle.reports.specs.Lines.{print, PutsOrWants};
ghost use Rattle.reports.specs.Account.{report_on, account_of, AccountLaw, settling as calls_of, Tells};

use crate::found::{charges_in, first_sight};
use crate::printed::{PrintedKind, PrintedTally};
use crate::report::{Report, write_report};
use files::letter::TallyLetter;
use kinds::kind::Kind;
use kinds::notation::Notation;
use runs::answer::Answer;
use runs::call::Call;
use runs::replay::replay;
use sheets::held::Draft;
use statements::fault::Fault;
use std::alloc::{AllocError, Global};
use tallies::tally::{Joins, Tally};

/// The steps that each sheet is given.
pub const STEPS: u32 = 1_000_000;

// The calls that settle a sheet: it is closed, searched and shown, and each person is charged.
fn settling(heap: Global, steps: u32) -> Result<Vec<Call>, AllocError>
    ensures { IfOk result (λ v. v.items ≡ calls_of steps) }
{
    let mut script = vec![in heap; Call::Close, Call::Search(steps), Call::Show(12)]?;
    // A loop: `extend` over `map` was tried, and its proof did not close, since nothing is known of what a closure answers that makes a
    // case of an enum.
    for person in 1..=20 {
        script.push(Call::Charge(person))?;
    }
    Ok(script)
}

// What these calls answer. Clauses name the rules and the printing part by part, since no trait has both the kind and the tally.
fn settle<K: Kind, T: Tally>(
    heap: Global,
    draft: Draft<K, T>,
    steps: u32,
) -> Result<Vec<Answer<K::Value, T::Cost>>, AllocError>
    requires { steps ≤ 1000000 }
    ensures tells { IfOk result (λ v. Tells v.items (account_of K.Kind.values (rules K.Kind.meaning K.Kind.fit T.Joins.joining T.Tally.order) steps draft.items draft.rows.items)) }
    ensures law { IfOk result (λ _. AccountLaw K.Kind.meaning (rules K.Kind.meaning K.Kind.fit T.Joins.joining T.Tally.order) draft.items draft.rows.items (searched (rules K.Kind.meaning K.Kind.fit T.Joins.joining T.Tally.order) draft.items draft.rows.items steps) (account_of K.Kind.values (rules K.Kind.meaning K.Kind.fit T.Joins.joining T.Tally.order) steps draft.items draft.rows.items)) }
{
    let script = settling(heap, steps)?;
    replay(heap, draft, script.as_slice())
}

/// Settles a sheet: closes it, lets it search for 1,000,000 steps, and writes the report of what it shows and of the charges of all
/// persons to the front of the buffer, whose rest stays. Answers how many bytes the report is. Refused by `Short` if the buffer is too
/// short, and by `Memory` if there is none; the buffer is then as it was.
pub fn account<K: PrintedKind, T: PrintedTally>(
    heap: Global,
    number: u64,
    draft: Draft<K, T>,
    buffer: &mut [u8],
) -> Result<usize, Fault>
    ensures bytes { PutsOrWants (report_on (print K.Notation.initial T.TallyLetter.initial K.PrintedKind.value_text T.PrintedTally.cost_text) (λ c. T.Tally.order c T.Joins.joining.empty) number (account_of K.Kind.values (rules K.Kind.meaning K.Kind.fit T.Joins.joining T.Tally.order) 1000000 draft.items draft.rows.items)) buffer.old buffer.new result }
    ensures law { IfOk result (λ _. AccountLaw K.Kind.meaning (rules K.Kind.meaning K.Kind.fit T.Joins.joining T.Tally.order) draft.items draft.rows.items (searched (rules K.Kind.meaning K.Kind.fit T.Joins.joining T.Tally.order) draft.items draft.rows.items 1000000) (account_of K.Kind.values (rules K.Kind.meaning K.Kind.fit T.Joins.joining T.Tally.order) 1000000 draft.items draft.rows.items)) }
{
    let answers = settle(heap, draft, STEPS)?;
    let charges = charges_in(heap, answers.as_slice())?;
    let sight = first_sight(answers.as_slice()).unwrap();
    let report = Report {
        number,
        sight,
        charges: charges.as_slice(),
    };
    write_report::<K, T>(heap, &report, buffer)
}
