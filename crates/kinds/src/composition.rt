// The composition of two base relations.
ghost use Rattle.kinds.specs.Composition.{Composition};

use crate::kind::Kind;

/// The set, as bits, of the base relations with which c and d fit: all e such that lawful values u, v and w exist with c from u to v,
/// d from v to w and e from u to w. It is empty where c or d is no code.
pub fn compose<K: Kind>(c: u8, d: u8) -> u64
    ensures { Composition K.Kind.meaning c d result }
{
    (0..64)
        .filter(|&e| K::fits(c, d, e))
        .fold(0, |set, e| set | 1 << e)
}
