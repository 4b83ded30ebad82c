// Closed sheets: searches at once and in slices, shows, charges, and sheets that are reopened.
use moments::{Moment, Moments};
use sheets::closed::{Closed, Shown};
use sheets::held::Draft;
use statements::entry::Entry;
use statements::fault::Fault;
use std::alloc::Global;
use std::test::Fail;
use tallies::by_weight::ByWeight;
use tallies::sworn_first::{SwornCost, SwornFirst};
use tallies::tally::Tally;

const NOWHERE: Moment = Moment { at: 99 };

fn entry(first: u32, set: u64, second: u32, weight: u32, person: u32) -> Entry {
    Entry {
        first,
        second,
        set,
        weight,
        person,
        sworn: false,
    }
}

/// Three moments in a circle: 1 < 2 with weight 3, 2 < 3 with weight 2, 1 > 3 with weight 4.
fn circle(heap: Global) -> Result<Draft<Moments, ByWeight>, Fault> {
    let mut draft = Draft::new(heap)?;
    draft.size(3)?;
    draft.enter(entry(1, 2, 2, 3, 1))?;
    draft.enter(entry(2, 2, 3, 2, 1))?;
    draft.enter(entry(1, 4, 3, 4, 2))?;
    Ok(draft)
}

/// The numbers of the first four values that are shown, with what is shown.
fn seen<T: Tally>(closed: &Closed<Moments, T>) -> Result<([u32; 4], Shown<T::Cost>), Fault> {
    let mut page = [NOWHERE; 4];
    let shown = closed.show(&mut page)?;
    Ok((page.map(|moment| moment.at), shown))
}

#[test]
fn at_once(rt: HostRuntime) -> Result<(), Fail> {
    let mut closed = circle(rt.alloc())?.close();
    let (values, opening) = seen(&closed)?;
    assert_eq!(rt;
        (values, opening.cost, opening.floor, opening.finished),
        ([0, 0, 0, 99], 9, 0, false)
    );
    assert!(rt; closed.search(1_000_001) == Err(Fault::Steps));
    assert!(rt; closed.search(1_000_000) == Ok(18));
    let (values, found) = seen(&closed)?;
    assert_eq!(rt;
        (values, found.cost, found.floor, found.finished),
        ([1, 2, 0, 99], 2, 0, true)
    );
    for (person, charge) in [
        (1, Ok(2)),
        (2, Ok(0)),
        (20, Ok(0)),
        (0, Err(Fault::Person)),
        (21, Err(Fault::Person)),
    ] {
        assert!(rt; closed.charge(person) == charge, "at {person}");
    }
    Ok(())
}

#[test]
fn in_slices(rt: HostRuntime) -> Result<(), Fail> {
    let mut closed = circle(rt.alloc())?.close();
    let mut taken = 0u32;
    for steps in [0, 1, 2, 5, 7, 2, 9, 1] {
        taken = taken.saturating_add(closed.search(steps).unwrap_or(99));
    }
    assert_eq!(rt; taken, 18);
    let (values, found) = seen(&closed)?;
    assert_eq!(rt;
        (values, found.cost, found.finished),
        ([1, 2, 0, 99], 2, true)
    );
    Ok(())
}

#[test]
fn reopened(rt: HostRuntime) -> Result<(), Fail> {
    let mut closed = circle(rt.alloc())?.close();
    assert!(rt; closed.search(18) == Ok(18));
    let mut draft = closed.reopen();
    assert_eq!(rt; (draft.items(), draft.entered()), (3, 3));
    assert!(rt; draft.reweigh(2, 5) == Ok(()));
    assert!(rt; draft.strike(3) == Ok(()));
    let mut closed = draft.close();
    let (values, opening) = seen(&closed)?;
    assert_eq!(rt;
        (values, opening.cost, opening.finished),
        ([0, 0, 0, 99], 8, false)
    );
    assert!(rt; closed.search(1_000_000).is_ok());
    let (values, found) = seen(&closed)?;
    assert_eq!(rt;
        (values, found.cost, found.finished),
        ([0, 1, 2, 99], 0, true)
    );
    Ok(())
}

#[test]
fn short_pages(rt: HostRuntime) -> Result<(), Fail> {
    let closed = circle(rt.alloc())?.close();
    let mut page = [NOWHERE; 2];
    assert!(rt; matches!(closed.show(&mut page), Err(Fault::Short)));
    assert_eq!(rt; (page[0].at, page[1].at), (99, 99));
    Ok(())
}

#[test]
fn one_moment(rt: HostRuntime) -> Result<(), Fail> {
    let draft: Draft<Moments, ByWeight> = Draft::new(rt.alloc())?;
    let mut closed = draft.close();
    assert!(rt; closed.search(1_000_000) == Ok(0));
    let (values, found) = seen(&closed)?;
    assert_eq!(rt;
        (values, found.cost, found.finished),
        ([0, 99, 99, 99], 0, true)
    );
    Ok(())
}

#[test]
fn sworn_first(rt: HostRuntime) -> Result<(), Fail> {
    let mut draft: Draft<Moments, SwornFirst> = Draft::new(rt.alloc())?;
    assert!(rt; draft.size(2) == Ok(()));
    assert!(rt; draft.enter(entry(1, 2, 2, 900, 1)) == Ok(1));
    assert!(rt;
        draft.enter(Entry {
            sworn: true,
            ..entry(1, 4, 2, 1, 2)
        }) == Ok(2)
    );
    let mut closed = draft.close();
    assert!(rt; closed.search(1_000_000) == Ok(2));
    let (values, found) = seen(&closed)?;
    assert_eq!(rt; (values, found.finished), ([1, 0, 99, 99], true));
    assert!(rt;
        found.cost
            == SwornCost {
                sworn: 0,
                weight: 900
            }
    );
    Ok(())
}
