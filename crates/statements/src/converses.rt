// The converses of a set of base relations.
ghost use Rattle.std.specs.Prelude.{◌≡◌};
ghost use Rattle.statements.specs.Drafts.{converses as converses_of, Turned};

use kinds::kind::Kind;
use points::set::contains;

/// The set, as bits, of the converses of the base relations in a set. A number in the set that is no code of the kind is left out.
pub fn converses<K: Kind>(set: u64) -> u64
    ensures is { result ≡ converses_of K.Kind.meaning.converse K.Kind.meaning.codes set }
    ensures turned { Turned K.Kind.meaning set result }
{
    // The converse of each code that is in the set goes into the answer, if it is below 64. A chain is no plainer: the definition goes code
    // by code, and a turn of the loop is a step of it.
    let mut turned: u64 = 0;
    for code in 0..K::count() {
        let converse = K::converse(code);
        if contains(set, code) && converse < 64 {
            turned |= 1 << converse;
        }
    }
    turned
}
