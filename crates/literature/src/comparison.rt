// Published tables, held against ours.
ghost use Rattle.std.specs.Prelude.{find, position, option_copied, ◌≡◌, ℕ, ◌==◌, ◌↔◌, Bool, Decides, bit_or, codes, length, List, ◌∷◌, IfOk, IsErr, IsOk, OnOk, MatchOption};
ghost use Rattle.std.specs.List.{All, flat_map};
ghost use Rattle.std.specs.Io.KnownBytes.{Appends};
ghost use Rattle.std.specs.Str.{bytes_eq};
ghost use Rattle.kinds.specs.Composition.{Composition};
ghost use Rattle.literature.specs.Held.{ConversesHeld, CountedIn, Entry, IdentityHeld, RowHeld, TableHeld, agreeing, differing, differs_line, entry_lines, joined, table_line, table_lines};
ghost use Rattle.literature.specs.Letters.{meant_code};
ghost use Rattle.literature.specs.Published.{Complete, Composes, ConverseAgrees, EntriesAgree, IdempotentAgrees, NeutralAgrees, TableAgrees, Uncomposed};
ghost use Rattle.literature.specs.Relations.{Single, Whole};
ghost use Rattle.literature.specs.Scores.{score_after, score_of};

use crate::algebra::{single, whole};
use crate::letters::Letters;
use crate::published::{Entries, Turned};
use crate::relations::print_set;
use crate::score::Score;
use anyhow::{Context, anyhow};
use kinds::composition::compose;
use kinds::kind::Kind;
use kinds::notation::{Notation, WholeNotation};
use std::io;
use std::io::Write;

/// A published table of compositions. Its columns are in the order of its rows.
#[derive(Clone, Copy)]
pub struct Table<'a> {
    pub letters: Letters<'a>,
    pub rows: &'a [Entries],
}

impl<'a> Table<'a> {
    /// The row of a letter, or none.
    fn row(self, letter: &str) -> Option<&'a Entries>
        ensures { option_copied result ≡ find (λ row. bytes_eq row.letter.now letter.now) self.entry.rows.now }
    {
        self.rows.iter().find(|row| row.letter == letter)
    }

    /// The place of the column of a letter, or none.
    fn column(self, letter: &str) -> Option<usize>
        ensures { result ≡ position (λ row. bytes_eq row.letter.now letter.now) self.entry.rows.now }
    {
        self.rows.iter().position(|row| row.letter == letter)
    }

    /// The published composition of two relations, or none where it cannot be read.
    pub(crate) fn composition<K: Notation>(self, first: &str, second: &str) -> Option<u64>
        ensures { MatchOption result (Uncomposed K.words self.entry first.now second.now) (λ set. Composes K.words self.entry first.now second.now set) }
    {
        let row = self.row(first)?;
        let column = self.column(second)?;
        self.letters.set::<K>(row.entries.get(column)?)
    }
}

/// A published table as it is held against ours: the base relations that were met in it, and how many of its entries agree.
#[derive(Clone, Copy, Default)]
pub(crate) struct Comparison {
    met: u64,
    score: Score,
}

/// Prints the line of an entry that differs.
fn print_difference<K: Notation, W: Write>(
    out: &mut W,
    relations: (u8, u8),
    ours: u64,
    published: u64,
) -> io::Result<()>
    ensures { OnOk result (Appends (W.contents out.old) (W.contents out.new) (differs_line K.words K.initial (record { first = relations.0; second = relations.1; ours = ours; published = published }))) }
{
    let (first, second) = relations;
    write!(out, "  differs: ")?;
    out.write_all(&[K::letter()])?;
    write!(out, " {} {}: ours", K::word(first), K::word(second))?;
    print_set::<K, W>(out, ours)?;
    write!(out, ", published")?;
    print_set::<K, W>(out, published)?;
    writeln!(out)
}

impl Comparison {
    /// The code of the base relation that a letter stands for, which is met with it. An error where it stands for no single one.
    pub(crate) fn meet<K: Notation>(&mut self, letters: Letters, letter: &str) -> anyhow::Result<u8>
        ensures read { MatchOption (meant_code K.words letters.entry.0.now letter.now) (IsErr result) (λ code. result ≡ Ok code) }
        ensures met { IfOk result (λ code. (one : ℕ) × Single code one × (self.new ≡ record self.old { met = bit_or self.old.met one })) }
    {
        let code = letters.read::<K>(letter)?;
        self.met |= single(code);
        Ok(code)
    }

    /// Counts in an entry of the table, and prints it where it is not ours.
    fn hold<K: Notation, W: Write>(
        &mut self,
        out: &mut W,
        relations: (u8, u8),
        ours: u64,
        published: Option<u64>,
    ) -> anyhow::Result<()>
        ensures unread { published ≡ None → IsErr result }
        ensures counted { IfOk result (λ _. (set : ℕ) → published ≡ Some set → self.new ≡ record self.old { score = score_after self.old.score (ours == set) }) }
        ensures printed { IfOk result (λ _. (set : ℕ) → published ≡ Some set → Appends (W.contents out.old) (W.contents out.new) (entry_lines K.words K.initial (record { first = relations.0; second = relations.1; ours = ours; published = set }))) }
    {
        let published = published.context("a published entry cannot be read")?;
        if ours != published {
            print_difference::<K, W>(out, relations, ours, published)?;
        }
        self.score.count(ours == published);
        Ok(())
    }

    /// Counts in the published composition of two relations.
    pub(crate) fn hold_composition<K: Kind + Notation, W: Write>(
        &mut self,
        out: &mut W,
        relations: (u8, u8),
        published: Option<u64>,
    ) -> anyhow::Result<()>
        ensures unread { published ≡ None → IsErr result }
        ensures counted { IfOk result (λ _. (set : ℕ) → published ≡ Some set → (agrees : Bool) × Decides agrees (Composition K.Kind.meaning relations.0 relations.1 set) × (self.new ≡ record self.old { score = score_after self.old.score agrees })) }
        ensures printed { IfOk result (λ _. (set : ℕ) → published ≡ Some set → (ours : ℕ) × Composition K.Kind.meaning relations.0 relations.1 ours × (self.new ≡ record self.old { score = score_after self.old.score (ours == set) }) × Appends (W.contents out.old) (W.contents out.new) (entry_lines K.Notation.words K.Notation.initial (record { first = relations.0; second = relations.1; ours = ours; published = set }))) }
    {
        let (r, s) = relations;
        self.hold::<K, W>(out, relations, compose::<K>(r, s), published)
    }

    /// Counts in the entries in the row of r of a table of compositions.
    fn hold_row<K: Kind + Notation, W: Write>(
        &mut self,
        out: &mut W,
        table: Table,
        r: u8,
        entries: &[&str],
    ) -> anyhow::Result<()>
        ensures full { IsOk result → length entries.now ≡ length table.entry.rows.now }
        ensures counted { IfOk result (λ _. (self.new.score.lacking ≡ 0) ↔ ((self.old.score.lacking ≡ 0) × EntriesAgree K.Kind.meaning K.words table.entry r entries.now)) }
        ensures kept { IfOk result (λ _. self.new.met ≡ self.old.met) }
        ensures printed { OnOk result ((held : List Entry) × RowHeld K.Kind.meaning K.Notation.words table.entry r entries.now held × CountedIn self.old.score (agreeing held) self.new.score × Appends (W.contents out.old) (W.contents out.new) (flat_map (entry_lines K.Notation.words K.Notation.initial) held)) }
    {
        if entries.len() != table.rows.len() {
            return Err(anyhow!("a published row has not one entry for each column"));
        }
        for (column, entry) in table.rows.iter().zip(entries) {
            let s = table.letters.read::<K>(column.letter)?;
            self.hold_composition::<K, W>(out, (r, s), table.letters.set::<K>(entry))?;
        }
        Ok(())
    }

    /// The line of the table; how many entries differ. An error where a relation was not met.
    pub(crate) fn close<K: Kind + Notation, W: Write>(
        self,
        out: &mut W,
        table: &str,
    ) -> anyhow::Result<u32>
        ensures closed { IfOk result (λ lacking. (lacking ≡ self.score.lacking) × Whole K.Kind.meaning self.met) }
        ensures printed { OnOk result ((tests : List Bool) → self.score ≡ score_of tests → Appends (W.contents out.old) (W.contents out.new) (table_line K.Notation.initial table.now tests)) }
    {
        if self.met != whole::<K>() {
            return Err(anyhow!("a published table leaves out a relation"));
        }
        write!(out, "published ")?;
        out.write_all(&[K::letter()])?;
        writeln!(
            out,
            " {table}: {} of {} agree",
            self.score.stand,
            self.score.tried()
        )?;
        Ok(self.score.lacking)
    }
}

/// Holds published converses against ours.
pub(crate) fn hold_converses<K: WholeNotation, W: Write>(
    out: &mut W,
    letters: Letters,
    pairs: &[Turned],
) -> anyhow::Result<u32>
    ensures agree { IfOk result (λ differing. (differing ≡ 0) ↔ All (ConverseAgrees K.Kind.meaning K.words letters.entry.0.now) pairs.now) }
    ensures complete { IfOk result (λ _. Complete K.Kind.meaning K.words letters.entry.0.now 0 (λ turned. turned.0.now) pairs.now) }
    ensures printed { IfOk result (λ differ. (held : List Entry) × ConversesHeld K.Kind.meaning K.words letters.entry.0.now pairs.now held × (differ ≡ differing held) × Appends (W.contents out.old) (W.contents out.new) (table_lines K.words K.initial (codes "converse") held)) }
{
    let mut comparison = Comparison::default();
    for Turned(relation, converse) in pairs {
        let r = comparison.meet::<K>(letters, relation)?;
        let ours = single(K::converse(r));
        comparison.hold::<K, W>(out, (r, r), ours, letters.set::<K>(converse))?;
    }
    comparison.close::<K, W>(out, "converse")
}

/// Holds a published table of compositions against ours. It has a row for each relation but those of a given set.
pub(crate) fn hold_compositions<K: WholeNotation, W: Write>(
    out: &mut W,
    table: Table,
    left_out: u64,
) -> anyhow::Result<u32>
    ensures agree { IfOk result (λ differing. (differing ≡ 0) ↔ TableAgrees K.Kind.meaning K.words table.entry) }
    ensures complete { IfOk result (λ _. Complete K.Kind.meaning K.words table.entry.letters.0.now left_out (λ row. row.letter.now) table.entry.rows.now) }
    ensures printed { IfOk result (λ differ. (held : List (List Entry)) × TableHeld K.Kind.meaning K.words table.entry held × (differ ≡ differing (joined held)) × Appends (W.contents out.old) (W.contents out.new) (table_lines K.words K.initial (codes "composition") (joined held))) }
{
    let mut comparison = Comparison {
        met: left_out,
        ..Comparison::default()
    };
    for row in table.rows {
        let r = comparison.meet::<K>(table.letters, row.letter)?;
        comparison.hold_row::<K, W>(out, table, r, row.entries)?;
    }
    comparison.close::<K, W>(out, "composition")
}

/// Holds the row and the column of the identity, which Allen's table leaves out, against ours: composed with it, a relation is itself.
pub(crate) fn hold_identity<K: WholeNotation, W: Write>(
    out: &mut W,
    table: Table,
    identity: u8,
    letter: &str,
) -> anyhow::Result<u32>
    ensures agree { IfOk result (λ differing. (differing ≡ 0) ↔ (IdempotentAgrees K.Kind.meaning K.words table.entry.letters.0.now identity letter.now × All (λ row. NeutralAgrees K.Kind.meaning K.words table.entry.letters.0.now identity row.letter.now) table.entry.rows.now)) }
    ensures complete { IfOk result (λ _. (one : ℕ) × Single identity one × Complete K.Kind.meaning K.words table.entry.letters.0.now one (λ row. row.letter.now) table.entry.rows.now) }
    ensures printed { IfOk result (λ differ. (itself : Entry) × (held : List (List Entry)) × IdentityHeld K.Kind.meaning K.words table.entry identity letter.now itself held × (differ ≡ differing (itself ∷ joined held)) × Appends (W.contents out.old) (W.contents out.new) (table_lines K.words K.initial (codes "identity") (itself ∷ joined held))) }
{
    let mut comparison = Comparison {
        met: single(identity),
        ..Comparison::default()
    };
    let itself = table.letters.set::<K>(letter);
    comparison.hold_composition::<K, W>(out, (identity, identity), itself)?;
    for row in table.rows {
        let r = comparison.meet::<K>(table.letters, row.letter)?;
        let itself = table.letters.set::<K>(row.letter);
        comparison.hold_composition::<K, W>(out, (identity, r), itself)?;
        comparison.hold_composition::<K, W>(out, (r, identity), itself)?;
    }
    comparison.close::<K, W>(out, "identity")
}

#[cfg(test)]
mod tests {
    use super::*;
    use crate::published::{POINT_COMPOSITIONS, POINT_LETTERS};
    use moments::Moments;
    use std::test::Fail;

    // The table of the point algebra with one wrong entry: > for < composed with <.
    static ONE_TURNED: [Entries; 3] = [
        Entries {
            letter: "<",
            entries: &[">", "B", "<"],
        },
        Entries {
            letter: ">",
            entries: &["B", ">", ">"],
        },
        Entries {
            letter: "=",
            entries: &["<", ">", "="],
        },
    ];

    // The table of the point algebra without the last entry of its first row.
    static ONE_LOST: [Entries; 3] = [
        Entries {
            letter: "<",
            entries: &["<", "B"],
        },
        Entries {
            letter: ">",
            entries: &["B", ">", ">"],
        },
        Entries {
            letter: "=",
            entries: &["<", ">", "="],
        },
    ];

    fn differing(rt: HostRuntime, rows: &[Entries]) -> Option<u32> {
        let letters = Letters(&POINT_LETTERS);
        let mut out = Vec::new(rt.alloc());
        hold_compositions::<Moments, Vec<u8>>(&mut out, Table { letters, rows }, 0).ok()
    }

    #[test]
    fn prints_differences(rt: HostRuntime) -> Result<(), Fail> {
        let letters = Letters(&POINT_LETTERS);
        let rows = &ONE_TURNED;
        let mut out = Vec::new(rt.alloc());
        hold_compositions::<Moments, Vec<u8>>(&mut out, Table { letters, rows }, 0).ok();
        assert_eq!(rt;
            *out.as_slice(),
            *b"  differs: M < <: ours <, published >\npublished M composition: 8 of 9 agree\n".as_slice()
        );
        Ok(())
    }

    #[test]
    fn counts_differences(rt: HostRuntime) -> Result<(), Fail> {
        assert_eq!(rt; differing(rt, &POINT_COMPOSITIONS), Some(0));
        assert_eq!(rt; differing(rt, &ONE_TURNED), Some(1));
        assert_eq!(rt; differing(rt, &ONE_LOST), None, "a row lost an entry");
        assert_eq!(rt;
            differing(rt, &POINT_COMPOSITIONS[1..]),
            None,
            "a row is lost"
        );
        Ok(())
    }
}
