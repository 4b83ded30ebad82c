// The codes of a kind.
ghost use Rattle.std.specs.Prelude.{◌≡◌, ◌^◌, nat_lt};

use kinds::kind::Kind;

/// Whether every number in a set, as bits, is a code of the kind.
pub(crate) fn only_codes<K: Kind>(set: u64) -> bool
    ensures { result ≡ nat_lt set (2 ^ K.Kind.meaning.codes) }
{
    let codes = K::count();
    codes >= 64 || set < 1 << codes
}
