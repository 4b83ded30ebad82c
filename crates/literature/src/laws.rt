// The laws of a relation algebra, tried over the base relations of a kind, which are told by their codes.
ghost use Rattle.std.specs.Prelude.{◌≡◌, ◌↔◌, Bool, Decides, IfOk, List, OnOk, if◌then◌else◌, nat_lt};
ghost use Rattle.std.specs.Io.KnownBytes.{Appends};
ghost use Rattle.std.specs.List.{All, flat_map};
ghost use Rattle.literature.specs.declared.laws.AlgebraLaw.{AlgebraLaw};
ghost use Rattle.literature.specs.Laws.{HoldsOfAll, LawHolds, speaks_of};
ghost use Rattle.literature.specs.Held.{CountedIn};
ghost use Rattle.literature.specs.Scores.{score_after};
ghost use Rattle.literature.specs.Tried.{AllTried, LawTrials, LawTried, LawsTried, Trial, TrialOf, failing, fails_line, holding, law_lines, laws_failing, laws_lines, trial_lines};

use crate::algebra::{compositions, converses, single};
use crate::score::{Score, total};
use kinds::composition::compose;
use kinds::kind::Kind;
use kinds::notation::Notation;
use std::io;
use std::io::Write;

/// The laws of a relation algebra. The identity has one for each side of a composition on which it stands. A law is data: each has an
/// extent and a test of its own, which a `match` tells.
#[derive(Clone, Copy)]
enum AlgebraLaw {
    LeftIdentity,
    RightIdentity,
    ConverseOfConverse,
    ConverseOfComposition,
    Associativity,
    Cycle,
}

impl AlgebraLaw {
    /// How many second and third relations there are to an instance, of b relations.
    fn extent(self, b: u8) -> (u8, u8)
        ensures second { result.0 ≡ (if nat_lt 1 (speaks_of self) then b else 1) }
        ensures third { result.1 ≡ (if nat_lt 2 (speaks_of self) then b else 1) }
    {
        match self {
            AlgebraLaw::LeftIdentity | AlgebraLaw::RightIdentity | AlgebraLaw::ConverseOfConverse =>
                (1, 1),
            AlgebraLaw::ConverseOfComposition => (b, 1),
            AlgebraLaw::Associativity | AlgebraLaw::Cycle => (b, b),
        }
    }

    /// Whether the law holds of the relations r, s and t.
    fn holds<K: Kind>(self, r: u8, s: u8, t: u8) -> bool
        ensures { Decides result (LawHolds K.Kind.meaning self r s t) }
    {
        match self {
            AlgebraLaw::LeftIdentity => compose::<K>(0, r) == single(r),
            AlgebraLaw::RightIdentity => compose::<K>(r, 0) == single(r),
            AlgebraLaw::ConverseOfConverse => K::converse(K::converse(r)) == r,
            AlgebraLaw::ConverseOfComposition => {
                converses::<K>(compose::<K>(r, s)) == compose::<K>(K::converse(s), K::converse(r))
            }
            AlgebraLaw::Associativity => {
                compositions::<K>(compose::<K>(r, s), single(t))
                    == compositions::<K>(single(r), compose::<K>(s, t))
            }
            AlgebraLaw::Cycle => {
                let fits = K::fits(r, s, t);
                fits == K::fits(K::converse(r), t, s) && fits == K::fits(t, K::converse(s), r)
            }
        }
    }
}

/// Prints the line of an instance that fails.
fn print_failure<K: Notation, W: Write>(
    out: &mut W,
    name: &str,
    relations: (u8, u8, u8),
) -> io::Result<()>
    ensures { OnOk result (Appends (W.contents out.old) (W.contents out.new) (fails_line K.words name.now relations.0 relations.1 relations.2)) }
{
    let (r, s, t) = relations;
    writeln!(
        out,
        "  fails: {name} at {} {} {}",
        K::word(r),
        K::word(s),
        K::word(t)
    )
}

/// Counts in an instance of a law, and prints it where it fails.
fn try_instance<K: Kind + Notation, W: Write>(
    out: &mut W,
    score: &mut Score,
    name: &str,
    law: AlgebraLaw,
    relations: (u8, u8, u8),
) -> io::Result<()>
    ensures counted { IfOk result (λ _. (holds : Bool) × Decides holds (LawHolds K.Kind.meaning law relations.0 relations.1 relations.2) × (score.new ≡ score_after score.old holds)) }
    ensures printed { OnOk result ((trial : Trial) × TrialOf K.Kind.meaning law relations.0 relations.1 relations.2 trial × (score.new ≡ score_after score.old trial.holds) × Appends (W.contents out.old) (W.contents out.new) (trial_lines K.Notation.words name.now trial)) }
{
    let (r, s, t) = relations;
    let holds = law.holds::<K>(r, s, t);
    if !holds {
        print_failure::<K, W>(out, name, relations)?;
    }
    score.count(holds);
    Ok(())
}

/// Tries a law over all base relations of a kind, and counts in its instances.
fn try_law<K: Kind + Notation, W: Write>(
    out: &mut W,
    score: &mut Score,
    name: &str,
    law: AlgebraLaw,
) -> io::Result<()>
    ensures counted { IfOk result (λ _. (score.new.lacking ≡ 0) ↔ ((score.old.lacking ≡ 0) × HoldsOfAll K.Kind.meaning law)) }
    ensures printed { OnOk result ((trials : List Trial) × LawTried K.Kind.meaning law trials × CountedIn score.old (holding trials) score.new × Appends (W.contents out.old) (W.contents out.new) (flat_map (trial_lines K.Notation.words name.now) trials)) }
{
    let (second, third) = law.extent(K::count());
    for r in 0..K::count() {
        for s in 0..second {
            for t in 0..third {
                try_instance::<K, W>(out, score, name, law, (r, s, t))?;
            }
        }
    }
    Ok(())
}

/// Tries the laws of a name over all base relations of a kind; how many instances fail.
fn try_named<K: Kind + Notation, W: Write>(
    out: &mut W,
    name: &str,
    laws: &[AlgebraLaw],
) -> io::Result<u32>
    ensures counted { IfOk result (λ failing. (failing ≡ 0) ↔ All (HoldsOfAll K.Kind.meaning) laws.now) }
    ensures printed { IfOk result (λ fail. (trials : List Trial) × LawsTried K.Kind.meaning laws.now trials × (fail ≡ failing trials) × Appends (W.contents out.old) (W.contents out.new) (law_lines K.Notation.words K.Notation.initial name.now trials)) }
{
    let mut score = Score::default();
    for law in laws {
        try_law::<K, W>(out, &mut score, name, *law)?;
    }
    write!(out, "law ")?;
    out.write_all(&[K::letter()])?;
    writeln!(out, " {name}: {} of {} hold", score.stand, score.tried())?;
    Ok(score.lacking)
}

/// Tries all laws over the base relations of a kind; how many instances fail.
pub(crate) fn try_laws<K: Kind + Notation, W: Write>(out: &mut W) -> io::Result<u32>
    ensures counted { IfOk result (λ failing. (failing ≡ 0) ↔ ((law : AlgebraLaw) → HoldsOfAll K.Kind.meaning law)) }
    ensures printed { IfOk result (λ fail. (trials : LawTrials) × AllTried K.Kind.meaning trials × (fail ≡ laws_failing trials) × Appends (W.contents out.old) (W.contents out.new) (laws_lines K.Notation.words K.Notation.initial trials)) }
{
    // The names stand here and in no `Display`, since the two laws of the identity are counted under one.
    Ok(total(&[
        try_named::<K, W>(
            out,
            "identity",
            &[AlgebraLaw::LeftIdentity, AlgebraLaw::RightIdentity],
        )?,
        try_named::<K, W>(
            out,
            "converse of a converse",
            &[AlgebraLaw::ConverseOfConverse],
        )?,
        try_named::<K, W>(
            out,
            "converse of a composition",
            &[AlgebraLaw::ConverseOfComposition],
        )?,
        try_named::<K, W>(out, "associativity", &[AlgebraLaw::Associativity])?,
        try_named::<K, W>(out, "cycle", &[AlgebraLaw::Cycle])?,
    ]))
}

#[cfg(test)]
mod tests {
    use super::*;
    use moments::Moments;
    use std::test::Fail;

    // 3 is no code of a moment, so composed with the identity it gives no relation.
    #[test]
    fn counts_failures(rt: HostRuntime) -> Result<(), Fail> {
        let mut score = Score::default();
        let law = AlgebraLaw::LeftIdentity;
        let mut out = Vec::new(rt.alloc());
        try_instance::<Moments, Vec<u8>>(&mut out, &mut score, "identity", law, (3, 0, 0))?;
        assert_eq!(rt; (score.stand, score.lacking), (0, 1));
        assert_eq!(rt; *out.as_slice(), *b"  fails: identity at  = =\n".as_slice());
        Ok(())
    }
}
