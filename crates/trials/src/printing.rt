// Reports and the lines of faults: their bytes, in buffers that are just as long, longer, and one byte too short.
use files::fault::{FieldFault, LineFault, Place, SheetFault};
use moments::{Moment, Moments};
use reports::account::account;
use reports::fault::write_fault;
use reports::report::{Report, write_report};
use runs::answer::Sight;
use sheets::closed::Shown;
use sheets::held::Draft;
use spells::Spells;
use spells::spell::Spell;
use statements::entry::Entry;
use statements::fault::Fault;
use std::alloc::Global;
use std::test::Fail;
use tallies::by_weight::ByWeight;
use tallies::sworn_first::{SwornCost, SwornFirst};

/// The bytes that a buffer has before anything is written.
const OLD: u8 = 7;

/// Whether a buffer has a text at its front, and is as it was behind it.
fn holds(buffer: &[u8], text: &str) -> bool {
    let text = text.as_bytes();
    let length = text.len();
    buffer.len() >= length
        && &buffer[..length] == text
        && buffer[length..].iter().all(|byte| *byte == OLD)
}

// The report of three moments: 35 bytes, three times 9, and 18.
const CIRCLE: &str =
    "sheet 1 M 3 w cost 2 floor 0 final\nitem 1 1\nitem 2 2\nitem 3 0\nperson 1 charge 2\n";

#[test]
fn a_report(rt: HostRuntime) -> Result<(), Fail> {
    let heap = rt.alloc();
    let values = vec![in heap; Moment { at: 1 }, Moment { at: 2 }, Moment { at: 0 }]?;
    let sight = Sight {
        values,
        shown: Shown {
            cost: 2,
            floor: 0,
            finished: true,
        },
    };
    let report = Report {
        number: 1,
        sight: &sight,
        charges: &[2, 0, 0],
    };
    let mut buffer = [OLD; 81];
    assert!(rt;
        write_report::<Moments, ByWeight>(heap, &report, &mut buffer[..79]) == Err(Fault::Short)
    );
    assert!(rt; buffer == [OLD; 81]);
    assert!(rt; write_report::<Moments, ByWeight>(heap, &report, &mut buffer[..80]) == Ok(80));
    assert!(rt; holds(&buffer, CIRCLE));
    let mut buffer = [OLD; 81];
    assert!(rt; write_report::<Moments, ByWeight>(heap, &report, &mut buffer) == Ok(80));
    assert!(rt; holds(&buffer, CIRCLE));
    Ok(())
}

// A spell whose search is left open.
const OPEN: &str =
    "sheet 12 S 1 r cost 1/900 floor 0/3 open\nitem 1 0 1\nperson 2 charge 0/900\nperson 4 charge 1/0\n";

#[test]
fn an_open_report(rt: HostRuntime) -> Result<(), Fail> {
    let heap = rt.alloc();
    let values = vec![in heap; Spell { start: 0, end: 1 }]?;
    let cost = |sworn: u32, weight: u32| SwornCost { sworn, weight };
    let sight = Sight {
        values,
        shown: Shown {
            cost: cost(1, 900),
            floor: cost(0, 3),
            finished: false,
        },
    };
    let report = Report {
        number: 12,
        sight: &sight,
        charges: &[cost(0, 0), cost(0, 900), cost(0, 0), cost(1, 0)],
    };
    let mut buffer = [OLD; 100];
    let length = OPEN.len();
    assert!(rt; write_report::<Spells, SwornFirst>(heap, &report, &mut buffer) == Ok(length));
    assert!(rt; holds(&buffer, OPEN));
    Ok(())
}

/// No report is longer: 12 spells and 20 persons who are charged, sworn first, and each number with as many digits as its type allows. A
/// cost has 21 bytes then, so the first line has 95; an item's has 28 and its number, which comes to 9 of 29 and 3 of 30; a person's has
/// 37 and the number, 9 of 38 and 11 of 39. That is 95 + 351 + 771 bytes.
#[test]
fn the_longest_report(rt: HostRuntime) -> Result<(), Fail> {
    let heap = rt.alloc();
    let most = u32::MAX;
    let spell = Spell {
        start: most,
        end: most,
    };
    let values = vec![in heap; spell; 12]?;
    let cost = SwornCost {
        sworn: most,
        weight: most,
    };
    let sight = Sight {
        values,
        shown: Shown {
            cost,
            floor: cost,
            finished: true,
        },
    };
    let report = Report {
        number: u64::MAX,
        sight: &sight,
        charges: &[cost; 20],
    };
    let mut buffer = [OLD; 4096];
    assert!(rt; write_report::<Spells, SwornFirst>(heap, &report, &mut buffer) == Ok(1217));
    assert!(rt; buffer[1217..].iter().all(|byte| *byte == OLD));
    Ok(())
}

const FAULT: &str = "fault 14 sheet 2 line 5 field 2\n";

#[test]
fn a_fault(rt: HostRuntime) -> Result<(), Fail> {
    let heap = rt.alloc();
    let fault = SheetFault {
        place: Place { sheet: 2, line: 5 },
        fault: LineFault::Field(2, FieldFault::NotNumber),
    };
    let mut buffer = [OLD; 33];
    assert!(rt; write_fault(heap, &fault, &mut buffer[..31]) == Err(Fault::Short));
    assert!(rt; buffer == [OLD; 33]);
    assert!(rt; write_fault(heap, &fault, &mut buffer[..32]) == Ok(32));
    assert!(rt; holds(&buffer, FAULT));
    let mut buffer = [OLD; 33];
    assert!(rt; write_fault(heap, &fault, &mut buffer) == Ok(32));
    assert!(rt; holds(&buffer, FAULT));
    Ok(())
}

/// Moments in a circle: each of the statements says that the first of two is before the second.
fn circle(
    heap: Global,
    items: u32,
    statements: &[(u32, u32, u32, u32)],
) -> Result<Draft<Moments, ByWeight>, Fault> {
    let mut draft = Draft::new(heap)?;
    draft.size(items)?;
    for (first, second, weight, person) in statements {
        draft.enter(Entry {
            first: *first,
            second: *second,
            set: 2,
            weight: *weight,
            person: *person,
            sworn: false,
        })?;
    }
    Ok(draft)
}

#[test]
fn an_account(rt: HostRuntime) -> Result<(), Fail> {
    let heap = rt.alloc();
    let household = [(1, 2, 3, 1), (2, 3, 2, 1), (3, 1, 4, 2)];
    let mut buffer = [OLD; 81];
    let draft = circle(heap, 3, &household)?;
    assert!(rt; account(heap, 1, draft, &mut buffer[..79]) == Err(Fault::Short));
    assert!(rt; buffer == [OLD; 81]);
    let draft = circle(heap, 3, &household)?;
    assert!(rt; account(heap, 1, draft, &mut buffer) == Ok(80));
    assert!(rt; holds(&buffer, CIRCLE));
    Ok(())
}

// Twelve moments, the last three in a circle: the search does not finish in 1,000,000 steps (bench/README.md).
const TWELVE: &str =
    "sheet 10 M 12 w cost 1 floor 0 open\nitem 1 0\nitem 2 0\nitem 3 0\nitem 4 0\nitem 5 0\nitem 6 0\nitem 7 0\nitem 8 0\nitem 9 0\nitem 10 0\nitem 11 10\nitem 12 11\nperson 3 charge 1\n";

#[test]
fn an_account_left_open(rt: HostRuntime) -> Result<(), Fail> {
    let heap = rt.alloc();
    let draft = circle(heap, 12, &[(10, 11, 1, 1), (11, 12, 1, 2), (12, 10, 1, 3)])?;
    let mut buffer = [OLD; 4096];
    let length = TWELVE.len();
    assert!(rt; account(heap, 10, draft, &mut buffer) == Ok(length));
    assert!(rt; holds(&buffer, TWELVE));
    Ok(())
}
