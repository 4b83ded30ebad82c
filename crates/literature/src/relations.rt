// The base relations of a kind, printed: their words, their converses and their compositions.
// Base relations are told by their codes, so the loops go over ranges of codes.
ghost use Rattle.std.specs.Prelude.{◌≡◌, OnOk};
ghost use Rattle.std.specs.Io.KnownBytes.{Appends};
ghost use Rattle.points.specs.Sets.{has};
ghost use Rattle.literature.specs.Printed.{below, composition_line, converse_line, fitting_tests, kind_line, kind_lines, set_words, words_line};
ghost use Rattle.literature.specs.Scores.{score_of};

use crate::algebra::whole;
use crate::score::Score;
use kinds::composition::compose;
use kinds::kind::Kind;
use kinds::notation::Notation;
use points::set::contains;
use std::io;
use std::io::Write;

/// Prints the words of a set in the order of the codes, each after a space.
pub(crate) fn print_set<K: Notation, W: Write>(out: &mut W, set: u64) -> io::Result<()>
    ensures { OnOk result (Appends (W.contents out.old) (W.contents out.new) (set_words K.words (has set))) }
{
    for code in 0..64 {
        if contains(set, code) {
            write!(out, " {}", K::word(code))?;
        }
    }
    Ok(())
}

/// Prints the relation words.
fn print_words<K: Kind + Notation, W: Write>(out: &mut W) -> io::Result<()>
    ensures { OnOk result (Appends (W.contents out.old) (W.contents out.new) (words_line K.Notation.words K.Kind.meaning.codes)) }
{
    write!(out, "words")?;
    print_set::<K, W>(out, whole::<K>())?;
    writeln!(out)
}

/// Prints the converse of each base relation.
fn print_converses<K: Kind + Notation, W: Write>(out: &mut W) -> io::Result<()>
    ensures { OnOk result (Appends (W.contents out.old) (W.contents out.new) (below (converse_line K.Notation.words K.Kind.meaning.converse) K.Kind.meaning.codes)) }
{
    for code in 0..K::count() {
        writeln!(
            out,
            "converse {} {}",
            K::word(code),
            K::word(K::converse(code))
        )?;
    }
    Ok(())
}

/// Prints the composition of two base relations.
fn print_composition<K: Kind + Notation, W: Write>(out: &mut W, c: u8, d: u8) -> io::Result<()>
    ensures { OnOk result (Appends (W.contents out.old) (W.contents out.new) (composition_line K.Notation.words K.Notation.initial K.Kind.fit c d)) }
{
    out.write_all(&[K::letter()])?;
    write!(out, " {} {}:", K::word(c), K::word(d))?;
    print_set::<K, W>(out, compose::<K>(c, d))?;
    writeln!(out)
}

/// How many triples of base relations fit.
fn fitting<K: Kind>() -> Score
    ensures { result ≡ score_of (fitting_tests K.fit K.meaning.codes) }
{
    let mut score = Score::default();
    for c in 0..K::count() {
        for d in 0..K::count() {
            for e in 0..K::count() {
                score.count(K::fits(c, d, e));
            }
        }
    }
    score
}

/// Prints the composition of each two base relations, and how many triples fit.
fn print_compositions<K: Kind + Notation, W: Write>(out: &mut W) -> io::Result<()>
    ensures { OnOk result (Appends (W.contents out.old) (W.contents out.new) (below (λ c. below (composition_line K.Notation.words K.Notation.initial K.Kind.fit c) K.Kind.meaning.codes) K.Kind.meaning.codes)) }
{
    for c in 0..K::count() {
        for d in 0..K::count() {
            print_composition::<K, W>(out, c, d)?;
        }
    }
    Ok(())
}

/// Prints the line of a kind.
fn print_name<K: Notation, W: Write>(out: &mut W, name: &str) -> io::Result<()>
    ensures { OnOk result (Appends (W.contents out.old) (W.contents out.new) (kind_line K.initial name.now)) }
{
    write!(out, "kind ")?;
    out.write_all(&[K::letter()])?;
    writeln!(out, " {name}")
}

/// Prints the table of a kind.
pub(crate) fn print_kind<K: Kind + Notation, W: Write>(out: &mut W, name: &str) -> io::Result<()>
    ensures { OnOk result (Appends (W.contents out.old) (W.contents out.new) (kind_lines K.Notation.words K.Notation.initial K.Kind.meaning.codes K.Kind.meaning.converse K.Kind.fit name.now)) }
{
    print_name::<K, W>(out, name)?;
    print_words::<K, W>(out)?;
    print_converses::<K, W>(out)?;
    print_compositions::<K, W>(out)?;
    let score = fitting::<K>();
    writeln!(out, "fitting triples {} of {}", score.stand, score.tried())
}
