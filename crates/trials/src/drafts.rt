// Drafts: what each call accepts and refuses at its limits.
use moments::Moments;
use sheets::held::Draft;
use statements::entry::Entry;
use statements::fault::Fault;
use std::alloc::Global;
use std::test::Fail;
use tallies::by_weight::ByWeight;

type Sheet = Draft<Moments, ByWeight>;

// A statement that may be entered on a draft of two items.
const GOOD: Entry = Entry {
    first: 1,
    second: 2,
    set: 2,
    weight: 1,
    person: 1,
    sworn: false,
};

/// The number of a refusal, if there is one: tests tell refusals by the numbers that are printed.
fn refusal<A: Copy>(answer: Result<A, Fault>) -> Option<u8> {
    answer.err().map(Fault::number)
}

/// A draft of so many items.
fn draft_of(heap: Global, items: u32) -> Result<Sheet, Fault> {
    let mut draft = Draft::new(heap)?;
    draft.size(items)?;
    Ok(draft)
}

#[test]
fn sizes(rt: HostRuntime) -> Result<(), Fail> {
    let mut draft = Sheet::new(rt.alloc())?;
    assert_eq!(rt; draft.items(), 1);
    for (items, number) in [
        (0, Some(1)),
        (13, Some(1)),
        (12, None),
        (1, None),
        (2, None),
    ] {
        assert_eq!(rt; refusal(draft.size(items)), number, "at {items}");
    }
    assert_eq!(rt; refusal(draft.enter(GOOD)), None);
    assert_eq!(rt; refusal(draft.size(13)), Some(1));
    assert_eq!(rt; (draft.items(), draft.entered()), (2, 1));
    assert_eq!(rt; refusal(draft.size(2)), None);
    assert_eq!(rt; draft.entered(), 0);
    Ok(())
}

#[test]
fn entries(rt: HostRuntime) -> Result<(), Fail> {
    let mut draft = draft_of(rt.alloc(), 2)?;
    let table = [
        (Entry { first: 0, ..GOOD }, Some(2)),
        (Entry { second: 3, ..GOOD }, Some(2)),
        (
            Entry {
                first: 3,
                second: 3,
                ..GOOD
            },
            Some(2),
        ),
        (Entry { first: 2, ..GOOD }, Some(3)),
        (
            Entry {
                set: 8,
                weight: 0,
                ..GOOD
            },
            Some(4),
        ),
        (
            Entry {
                weight: 0,
                person: 0,
                ..GOOD
            },
            Some(5),
        ),
        (
            Entry {
                weight: 1001,
                ..GOOD
            },
            Some(5),
        ),
        (Entry { person: 0, ..GOOD }, Some(6)),
        (Entry { person: 21, ..GOOD }, Some(6)),
        (
            Entry {
                weight: 1000,
                person: 20,
                set: 7,
                ..GOOD
            },
            None,
        ),
        (Entry { set: 0, ..GOOD }, None),
    ];
    for (entry, number) in table {
        assert_eq!(rt; refusal(draft.enter(entry)), number);
    }
    assert_eq!(rt; draft.entered(), 2);
    Ok(())
}

#[test]
fn at_most_256(rt: HostRuntime) -> Result<(), Fail> {
    let mut draft = draft_of(rt.alloc(), 2)?;
    for number in 1..=256u16 {
        assert!(rt; draft.enter(GOOD) == Ok(number));
    }
    assert_eq!(rt; refusal(draft.enter(GOOD)), Some(7));
    assert_eq!(rt; refusal(draft.enter(Entry { person: 21, ..GOOD })), Some(6));
    assert_eq!(rt; refusal(draft.strike(256)), None);
    assert_eq!(rt; refusal(draft.enter(GOOD)), Some(7));
    assert_eq!(rt; draft.entered(), 256);
    Ok(())
}

#[test]
fn struck_ones(rt: HostRuntime) -> Result<(), Fail> {
    let mut draft = draft_of(rt.alloc(), 2)?;
    assert_eq!(rt; refusal(draft.strike(1)), Some(8));
    let turned = Entry {
        first: 2,
        second: 1,
        ..GOOD
    };
    assert_eq!(rt;
        (refusal(draft.enter(turned)), refusal(draft.enter(GOOD))),
        (None, None)
    );
    for (number, weight, refused) in [
        (0, 1, Some(8)),
        (3, 0, Some(8)),
        (2, 0, Some(5)),
        (2, 1001, Some(5)),
        (2, 1000, None),
    ] {
        assert_eq!(rt;
            refusal(draft.reweigh(number, weight)),
            refused,
            "at {number} {weight}"
        );
    }
    assert_eq!(rt;
        (refusal(draft.strike(2)), refusal(draft.strike(2))),
        (None, Some(9))
    );
    assert_eq!(rt; refusal(draft.reweigh(2, 0)), Some(9));
    assert_eq!(rt;
        (refusal(draft.look(0)), refusal(draft.look(3))),
        (Some(8), Some(8))
    );
    let (first, is_struck) = draft.look(1)?;
    assert_eq!(rt;
        (first.first, first.second, first.set, is_struck),
        (1, 2, 4, false)
    );
    let (second, is_struck) = draft.look(2)?;
    assert_eq!(rt; (second.set, second.weight, is_struck), (2, 1000, true));
    Ok(())
}
