// Files: what is read of them, and by which fault and where they are refused.
use dwellings::Dwellings;
use files::fault::SheetFault;
use files::letter::TallyLetter;
use files::reader::Reader;
use kinds::kind::Kind;
use kinds::notation::Notation;
use moments::Moments;
use sheets::held::Draft;
use spells::Spells;
use std::alloc::{AllocError, Global};
use std::test::Fail;
use tallies::by_weight::ByWeight;
use tallies::sworn_first::SwornFirst;
use tallies::tally::Tally;

// What a call of a reader answers: a fault by its number, sheet, line and field.
#[derive(Clone, Copy, PartialEq, Eq)]
enum Answer {
    Head(u8, u32, u8),
    NoHead,
    Loaded,
    Refused(u8, u32, u32, u8),
}

impl From<SheetFault> for Answer {
    fn from(fault: SheetFault) -> Answer {
        Answer::Refused(
            fault.number(),
            fault.place.sheet,
            fault.place.line,
            fault.field(),
        )
    }
}

/// Asks for the next head.
fn head(reader: &mut Reader) -> Answer {
    match reader.next_head() {
        Ok(Some(head)) => Answer::Head(head.kind.into(), head.size, head.tally.into()),
        Ok(None) => Answer::NoHead,
        Err(fault) => fault.into(),
    }
}

/// Loads, and tells how many items and statements the draft has then.
fn load<K: Kind + Notation, T: Tally + TallyLetter>(
    reader: &mut Reader,
    draft: &mut Draft<K, T>,
) -> (Answer, u8, usize) {
    let answer = match reader.load(draft) {
        Ok(()) => Answer::Loaded,
        Err(fault) => fault.into(),
    };
    (answer, draft.items(), draft.entered())
}

/// Loads the first sheet of a file. Where no head is answered, no draft has been asked: zeros stand for its items and statements.
fn read<K: Kind + Notation, T: Tally + TallyLetter>(
    file: &[u8],
    draft: &mut Draft<K, T>,
) -> (Answer, u8, usize) {
    let mut reader = Reader::new(file);
    match head(&mut reader) {
        Answer::Head(_, _, _) => load(&mut reader, draft),
        answer => (answer, 0, 0),
    }
}

/// What the statement with a number says, if there is one.
fn look<K: Kind, T: Tally>(
    draft: &Draft<K, T>,
    number: u32,
) -> Option<(u8, u8, u64, u16, u8, bool)> {
    let (s, _) = draft.look(number).ok()?;
    Some((s.first, s.second, s.set, s.weight, s.person, s.sworn))
}

// The number of a fault, and its place.
type Told = (u8, u32, u32, u8);

impl From<Told> for Answer {
    fn from((number, sheet, line, field): Told) -> Answer {
        Answer::Refused(number, sheet, line, field)
    }
}

// Files that are refused before any head, or at the first.
const HEADS: [(&str, Told); 28] = [
    ("1 2 < 3 1\nM 3 w", (12, 0, 1, 0)),
    ("\nM 3 w", (12, 0, 1, 0)),
    (" M 3 w", (12, 0, 1, 0)),
    ("m 3 w", (12, 0, 1, 0)),
    ("[ 3 w", (12, 0, 1, 0)),
    ("@ 3 w", (12, 0, 1, 0)),
    ("\n\n", (12, 0, 1, 0)),
    ("M 3", (13, 1, 1, 0)),
    ("X", (13, 1, 1, 0)),
    ("M 3 w ", (13, 1, 1, 0)),
    ("M  3 w", (13, 1, 1, 0)),
    ("A 3 w", (16, 1, 1, 1)),
    ("Z 03 x", (16, 1, 1, 1)),
    ("MS 3 w", (16, 1, 1, 1)),
    ("M 3 x", (16, 1, 1, 3)),
    ("M 3 W", (16, 1, 1, 3)),
    ("M 3 ", (16, 1, 1, 3)),
    ("M 3 w\r\n", (16, 1, 1, 3)),
    ("M 13 x", (16, 1, 1, 3)),
    ("M 03 x", (14, 1, 1, 2)),
    ("M  w", (14, 1, 1, 2)),
    ("M 4O w", (14, 1, 1, 2)),
    ("M -1 w", (14, 1, 1, 2)),
    ("M 1000000 w", (14, 1, 1, 2)),
    ("M 999999 w", (1, 1, 1, 2)),
    ("M 13 w", (1, 1, 1, 2)),
    ("M 0 r", (1, 1, 1, 2)),
    ("M 00 r", (14, 1, 1, 2)),
];

#[test]
fn heads_refused(rt: HostRuntime) -> Result<(), Fail> {
    for (file, fault) in HEADS {
        let mut reader = Reader::new(file.as_bytes());
        for _ in 0..2 {
            assert!(rt; head(&mut reader) == Answer::from(fault), "{file}");
        }
    }
    Ok(())
}

// Statements that are refused after the head of three moments.
const STATEMENTS: [(&str, Told); 33] = [
    ("M 3 w\n\n", (13, 1, 2, 0)),
    ("M 3 w\n1 2 < 3", (13, 1, 2, 0)),
    ("M 3 w\n1 2 < 3 1 ! ", (13, 1, 2, 0)),
    ("M 3 w\n1  2 < 3 1 !", (13, 1, 2, 0)),
    ("M 3 w\n1 2 < 3 1\n1 2 < 3", (13, 1, 3, 0)),
    ("M 3 w\n01 2 < 3 1", (14, 1, 2, 1)),
    ("M 3 w\n2 < 3 1 !", (14, 1, 2, 2)),
    ("M 3 w\n1 4O < 3 1", (14, 1, 2, 2)),
    ("M 3 w\n1 2 < 0000003 1", (14, 1, 2, 4)),
    ("M 3 w\n1 2 <  1", (14, 1, 2, 4)),
    ("M 3 w\n1 2 < : 1", (14, 1, 2, 4)),
    ("M 3 w\n1 2 < 3 1000000", (14, 1, 2, 5)),
    ("M 3 w\n1 2 < 3 1\r\n", (14, 1, 2, 5)),
    ("M 3 w\n4 4 < 0 x", (14, 1, 2, 5)),
    ("M 3 w\n1 2 </ 3 1", (15, 1, 2, 3)),
    ("M 3 w\n1 2 /< 3 1", (15, 1, 2, 3)),
    ("M 3 w\n1 2 <//> 3 1", (15, 1, 2, 3)),
    ("M 3 w\n1 2 / 3 1", (15, 1, 2, 3)),
    ("M 3 w\n1 2 p 3 1", (15, 1, 2, 3)),
    ("M 3 w\n1 2 <> x 1", (15, 1, 2, 3)),
    ("M 3 w\n1 2 < 3 1 ?", (15, 1, 2, 6)),
    ("M 3 w\n1 2 < 3 1 ", (15, 1, 2, 6)),
    ("M 3 w\n1 2 < 3 1 !!", (15, 1, 2, 6)),
    ("M 3 w\n0 2 < 3 1", (2, 1, 2, 1)),
    ("M 3 w\n4 4 < 0 0", (2, 1, 2, 1)),
    ("M 3 w\n3 4 < 0 0", (2, 1, 2, 2)),
    ("M 3 w\n3 0 < 0 0", (2, 1, 2, 2)),
    ("M 3 w\n3 3 < 0 0", (3, 1, 2, 2)),
    ("M 3 w\n3 2 < 0 0", (5, 1, 2, 4)),
    ("M 3 w\n3 2 < 1001 0", (5, 1, 2, 4)),
    ("M 3 w\n3 2 < 1000 0", (6, 1, 2, 5)),
    ("M 3 w\n3 2 < 1000 21 !", (6, 1, 2, 5)),
    ("M 3 w\n1 2 < 3 1\n1 2 = 3 1 !\n1 300 = 3 1", (2, 1, 4, 2)),
];

#[test]
fn statements_refused(rt: HostRuntime) -> Result<(), Fail> {
    let mut draft: Draft<Moments, ByWeight> = Draft::new(rt.alloc())?;
    for (file, fault) in STATEMENTS {
        let mut reader = Reader::new(file.as_bytes());
        assert!(rt; head(&mut reader) == Answer::Head(b'M', 3, b'w'), "{file}");
        for _ in 0..2 {
            assert!(rt;
                load(&mut reader, &mut draft) == (Answer::from(fault), 3, 0),
                "{file}"
            );
        }
        assert!(rt; head(&mut reader) == Answer::NoHead, "{file}");
    }
    Ok(())
}

#[test]
fn moments_loaded(rt: HostRuntime) -> Result<(), Fail> {
    let mut draft: Draft<Moments, ByWeight> = Draft::new(rt.alloc())?;
    for file in [
        "M 3 w\n1 2 < 3 1\n2 3 < 2 1\n1 3 > 4 2\n",
        "M 3 w\n1 2 < 3 1\n2 3 < 2 1\n1 3 > 4 2",
    ] {
        assert!(rt;
            read(file.as_bytes(), &mut draft) == (Answer::Loaded, 3, 3),
            "{file}"
        );
        assert!(rt; look(&draft, 1) == Some((1, 2, 2, 3, 1, false)), "{file}");
        assert!(rt; look(&draft, 2) == Some((2, 3, 2, 2, 1, false)), "{file}");
        assert!(rt; look(&draft, 3) == Some((1, 3, 4, 4, 2, false)), "{file}");
    }
    for (file, items, entered) in [
        ("M 12 w", 12, 0),
        ("M 1 w\n", 1, 0),
        ("M 3 w\n2 1  1000 20 !\n1 2 =/</>/= 1 1\nX\n\n", 3, 2),
    ] {
        assert!(rt;
            read(file.as_bytes(), &mut draft) == (Answer::Loaded, items, entered),
            "{file}"
        );
    }
    assert!(rt; look(&draft, 1) == Some((1, 2, 0, 1000, 20, true)));
    assert!(rt; look(&draft, 2) == Some((1, 2, 7, 1, 1, false)));
    Ok(())
}

#[test]
fn spells_loaded(rt: HostRuntime) -> Result<(), Fail> {
    let mut draft: Draft<Spells, ByWeight> = Draft::new(rt.alloc())?;
    let file = "S 2 w\n1 2 eq/p/pi/m/mi/o/oi/s/si/d/di/f/fi 1000 20 !\n2 1 p/pi 5 1\n";
    assert!(rt; read(file.as_bytes(), &mut draft) == (Answer::Loaded, 2, 2));
    assert!(rt; look(&draft, 1) == Some((1, 2, 8191, 1000, 20, true)));
    assert!(rt; look(&draft, 2) == Some((1, 2, 6, 5, 1, false)));
    let file = "S 2 w\n1 2 p/ 3 1\n";
    assert!(rt; read(file.as_bytes(), &mut draft) == (Answer::Refused(15, 1, 2, 3), 2, 0));
    Ok(())
}

#[test]
fn dwellings_loaded(rt: HostRuntime) -> Result<(), Fail> {
    let mut draft: Draft<Dwellings, SwornFirst> = Draft::new(rt.alloc())?;
    let file = "D 4 r\n1 2 n/nw 3 1\n4 3 s 7 2 !\n1 4  1 1\n1 2 e/se/sw/w/ne/eq 1 1\n";
    assert!(rt; read(file.as_bytes(), &mut draft) == (Answer::Loaded, 4, 4));
    assert!(rt; look(&draft, 1) == Some((1, 2, 258, 3, 1, false)));
    assert!(rt; look(&draft, 2) == Some((3, 4, 2, 7, 2, true)));
    assert!(rt; look(&draft, 3) == Some((1, 4, 0, 1, 1, false)));
    assert!(rt; look(&draft, 4) == Some((1, 2, 221, 1, 1, false)));
    let file = "D 4 r\n1 2 p 3 1\n";
    assert!(rt; read(file.as_bytes(), &mut draft) == (Answer::Refused(15, 1, 2, 3), 4, 0));
    Ok(())
}

const SEVERAL: &str =
    "M 3 w\n1 2 < 3 1\nS 4 r\n1 2 p 3 1\nunfit\nM 2 r\n2 1 = 1 1 !\n1 2 = 0 1\nD 0 w\n";

#[test]
fn several_sheets(rt: HostRuntime) -> Result<(), Fail> {
    let heap = rt.alloc();
    let mut moments: Draft<Moments, ByWeight> = Draft::new(heap)?;
    let mut sworn: Draft<Moments, SwornFirst> = Draft::new(heap)?;
    let mut spells: Draft<Spells, SwornFirst> = Draft::new(heap)?;
    let mut reader = Reader::new(SEVERAL.as_bytes());
    // No head waits before one is asked for.
    assert!(rt; load(&mut reader, &mut moments) == (Answer::Refused(12, 0, 0, 0), 1, 0));
    assert!(rt; head(&mut reader) == Answer::Head(b'M', 3, b'w'));
    // The drafts are of another kind or tally.
    assert!(rt; load(&mut reader, &mut spells) == (Answer::Refused(16, 0, 0, 0), 1, 0));
    assert!(rt; load(&mut reader, &mut sworn) == (Answer::Refused(16, 0, 0, 0), 1, 0));
    assert!(rt; load(&mut reader, &mut moments) == (Answer::Loaded, 3, 1));
    // A sheet is loaded once; that no head waits is told first.
    assert!(rt; load(&mut reader, &mut moments) == (Answer::Refused(12, 0, 0, 0), 3, 1));
    assert!(rt; load(&mut reader, &mut sworn) == (Answer::Refused(12, 0, 0, 0), 1, 0));
    assert!(rt; head(&mut reader) == Answer::Head(b'S', 4, b'r'));
    // An unfit line: the sheet cannot be loaded, and is passed over.
    assert!(rt; load(&mut reader, &mut spells) == (Answer::Refused(13, 2, 5, 0), 4, 0));
    assert!(rt; head(&mut reader) == Answer::Head(b'M', 2, b'r'));
    // The fourth head is unfit, and the third still waits.
    assert!(rt; head(&mut reader) == Answer::Refused(1, 4, 9, 2));
    assert!(rt; load(&mut reader, &mut sworn) == (Answer::Refused(5, 3, 8, 4), 2, 0));
    assert!(rt; head(&mut reader) == Answer::Refused(1, 4, 9, 2));
    assert!(rt; load(&mut reader, &mut moments) == (Answer::Refused(16, 0, 0, 0), 3, 1));
    assert!(rt; load(&mut reader, &mut sworn) == (Answer::Refused(5, 3, 8, 4), 2, 0));
    Ok(())
}

#[test]
fn no_head(rt: HostRuntime) -> Result<(), Fail> {
    let mut draft: Draft<Moments, ByWeight> = Draft::new(rt.alloc())?;
    // A file without lines; then one whose head waited, and is passed where there is no further head.
    for (file, first) in [
        ("", Answer::NoHead),
        ("M 3 w\n1 2 < 3 1\n", Answer::Head(b'M', 3, b'w')),
    ] {
        let mut reader = Reader::new(file.as_bytes());
        assert!(rt; head(&mut reader) == first);
        for _ in 0..2 {
            assert!(rt; head(&mut reader) == Answer::NoHead);
            assert!(rt; load(&mut reader, &mut draft) == (Answer::Refused(12, 0, 0, 0), 1, 0));
        }
    }
    Ok(())
}

/// So many copies of a text after another.
fn repeated(heap: Global, first: &str, text: &str, times: usize) -> Result<Vec<u8>, AllocError> {
    let mut file = Vec::new(heap);
    file.extend_from_slice(first.as_bytes())?;
    for _ in 0..times {
        file.extend_from_slice(text.as_bytes())?;
    }
    Ok(file)
}

// 67 bytes: a word 34 times.
const LONG_SET: &str = "</</</</</</</</</</</</</</</</</</</</</</</</</</</</</</</</</<";

#[test]
fn long_lines(rt: HostRuntime) -> Result<(), Fail> {
    let heap = rt.alloc();
    let mut draft: Draft<Moments, ByWeight> = Draft::new(heap)?;
    for (last, length, answer) in [
        (" 1000 2 !\n", 80, (Answer::Loaded, 3, 1)),
        (" 1000 20 !\n", 81, (Answer::Refused(17, 1, 2, 0), 3, 0)),
        (" 1 1 ! ! ! !\n", 83, (Answer::Refused(17, 1, 2, 0), 3, 0)),
    ] {
        let mut file = repeated(heap, "M 3 w\n1 2 ", LONG_SET, 1)?;
        file.extend_from_slice(last.as_bytes())?;
        assert_eq!(rt; file.len(), 7 + length);
        assert!(rt; read(file.as_slice(), &mut draft) == answer, "at {length}");
    }
    Ok(())
}

/// What is answered to whoever asks twice for a head.
fn two_heads(file: &[u8]) -> (Answer, Answer) {
    let mut reader = Reader::new(file);
    let first = head(&mut reader);
    (first, head(&mut reader))
}

#[test]
fn long_heads(rt: HostRuntime) -> Result<(), Fail> {
    let heap = rt.alloc();
    // The first head is refused, and again when it is asked for anew.
    for (first, more, fault) in [
        ("M", 79, (13, 1, 1, 0)),
        ("M", 80, (17, 1, 1, 0)),
        ("m", 79, (12, 0, 1, 0)),
        ("m", 80, (17, 0, 1, 0)),
    ] {
        let file = repeated(heap, first, "x", more)?;
        let answers = (Answer::from(fault), Answer::from(fault));
        assert!(rt; two_heads(file.as_slice()) == answers, "{first}");
    }
    // The first head is answered, and the second refused.
    for (more, fault) in [(79, (13, 2, 3, 0)), (80, (17, 2, 3, 0))] {
        let file = repeated(heap, "M 3 w\n1 2 < 3 1\nZ", "x", more)?;
        let answers = (Answer::Head(b'M', 3, b'w'), Answer::from(fault));
        assert!(rt; two_heads(file.as_slice()) == answers, "{more}");
    }
    Ok(())
}

#[test]
fn long_sheets(rt: HostRuntime) -> Result<(), Fail> {
    let heap = rt.alloc();
    let mut draft: Draft<Moments, ByWeight> = Draft::new(heap)?;
    for (statements, answer) in [
        (256, (Answer::Loaded, 2, 256)),
        (257, (Answer::Refused(7, 1, 258, 0), 2, 0)),
    ] {
        let file = repeated(heap, "M 2 w\n", "1 2 < 1 1\n", statements)?;
        assert!(rt; read(file.as_slice(), &mut draft) == answer, "{statements}");
    }
    Ok(())
}

#[test]
fn long_files(rt: HostRuntime) -> Result<(), Fail> {
    let heap = rt.alloc();
    let mut draft: Draft<Moments, ByWeight> = Draft::new(heap)?;
    // 65,536 bytes, and one more.
    for (more, first, second, loaded) in [
        (
            65_529,
            Answer::Head(b'M', 12, b'w'),
            Answer::NoHead,
            (Answer::Refused(13, 1, 2, 0), 12, 0),
        ),
        (
            65_530,
            Answer::Refused(17, 0, 0, 0),
            Answer::Refused(17, 0, 0, 0),
            (Answer::Refused(17, 0, 0, 0), 12, 0),
        ),
    ] {
        let file = repeated(heap, "M 12 w\n", "\n", more)?;
        let mut reader = Reader::new(file.as_slice());
        assert!(rt; head(&mut reader) == first);
        assert!(rt; load(&mut reader, &mut draft) == loaded);
        assert!(rt; head(&mut reader) == second);
    }
    Ok(())
}
