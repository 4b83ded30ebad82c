// Scripts carried out from a draft: calls that are made, that are refused, and that the state does not take.
use kinds::kind::Kind;
use moments::Moments;
use runs::answer::Answer;
use runs::call::Call;
use runs::replay::replay;
use sheets::held::Draft;
use statements::entry::Entry;
use std::test::Fail;
use tallies::by_weight::ByWeight;
use tallies::tally::Joins;

type Value = <Moments as Kind>::Value;

type Cost = <ByWeight as Joins>::Cost;

const EARLIER: Entry = Entry {
    first: 1,
    second: 2,
    set: 2,
    weight: 7,
    person: 3,
    sworn: false,
};

/// The sort of an answer, by a letter so that a script stands in a table, and the number that it tells, 0 where it tells none.
fn told(answer: &Answer<Value, Cost>) -> (char, u32) {
    match answer {
        Answer::Unmade => ('-', 0),
        Answer::Refused(fault) => ('r', u32::from(fault.number())),
        Answer::Done => ('d', 0),
        Answer::Entered(number) => ('e', u32::from(*number)),
        Answer::Looked(entry, _) => ('l', entry.weight),
        Answer::Took(steps) => ('t', *steps),
        Answer::Shown(sight) => ('s', sight.shown.cost),
        Answer::Charged(charge) => ('c', *charge),
    }
}

#[test]
fn a_script(rt: HostRuntime) -> Result<(), Fail> {
    let heap = rt.alloc();
    let draft: Draft<Moments, ByWeight> = Draft::new(heap)?;
    let script = [
        (Call::Search(1), ('-', 0)),
        (Call::Enter(EARLIER), ('r', 2)),
        (Call::Size(2), ('d', 0)),
        (Call::Enter(EARLIER), ('e', 1)),
        (Call::Look(1), ('l', 7)),
        (Call::Reopen, ('-', 0)),
        (Call::Close, ('d', 0)),
        (Call::Strike(1), ('-', 0)),
        (Call::Show(2), ('s', 7)),
        (Call::Charge(3), ('c', 7)),
        (Call::Search(1_000_001), ('r', 10)),
        (Call::Search(1_000_000), ('t', 2)),
        (Call::Search(1), ('t', 0)),
        (Call::Show(1), ('r', 11)),
        (Call::Show(2), ('s', 0)),
        (Call::Charge(3), ('c', 0)),
        (Call::Charge(0), ('r', 6)),
        (Call::Reopen, ('d', 0)),
        (Call::Strike(1), ('d', 0)),
        (Call::Strike(1), ('r', 9)),
    ];
    let calls: Vec<Call> = script.iter().map(|(call, _)| *call).collect(heap)?;
    let answers = replay(heap, draft, calls.as_slice())?;
    assert_eq!(rt; answers.len(), script.len());
    for ((_, wanted), answer) in script.iter().zip(&answers) {
        assert_eq!(rt; told(answer), *wanted);
    }
    Ok(())
}
