// Converse and composition of sets of base relations.
ghost use Rattle.literature.specs.Relations.{Single, Whole, Converses, Compositions, CompositionsFrom, Union};

use kinds::composition::compose;
use kinds::kind::Kind;
use points::set::contains;

/// The set of one base relation; it is empty for a code of 64 or more.
pub(crate) fn single(code: u8) -> u64
    ensures { Single code result }
{
    if code < 64 { 1 << code } else { 0 }
}

/// The set of all base relations of a kind.
pub(crate) fn whole<K: Kind>() -> u64
    ensures { Whole K.Kind.meaning result }
{
    (0..K::count()).fold(0, |found, c| found | single(c))
}

/// The union of the sets that a function gives at the members of a set.
fn union_over<F: Fn(u8) -> u64>(set: u64, gives: F) -> u64
    requires { F.IsAlwaysCallable gives }
    ensures { Union set (λ c given. F.post gives c given) result }
{
    (0..64)
        .filter(|&code| contains(set, code))
        .fold(0, |found, code| found | gives(code))
}

// The crate `statements`, which this crate does not use, has such a function that leaves out numbers that are no codes; here they
// have the converse that the kind gives them.

/// The set of the converses of the members of a set.
pub(crate) fn converses<K: Kind>(set: u64) -> u64
    ensures { Converses K.Kind.meaning set result }
{
    union_over(set, |c| single(K::converse(c)))
}

/// The composition of a base relation with a set: the union of its compositions with the members. It and the next are two levels of one
/// union, each by `union_over`.
fn compositions_from<K: Kind>(c: u8, second: u64) -> u64
    ensures { CompositionsFrom K.Kind.meaning c second result }
{
    union_over(second, |d| compose::<K>(c, d))
}

/// The composition of two sets: the union of the compositions of the members of the first with those of the second.
pub(crate) fn compositions<K: Kind>(first: u64, second: u64) -> u64
    ensures { Compositions K.Kind.meaning first second result }
{
    union_over(first, |c| compositions_from::<K>(c, second))
}
