// The words of a field, and the set that they name.
ghost use Rattle.std.specs.Prelude.{◌≡◌, ℕ, ◌^◌, ◌<◌, IfOk, IfSome, Decides};
ghost use Rattle.points.specs.Sets.{has};
ghost use Rattle.files.specs.Words.{code_of as code_in, set_in, Names};

use crate::fault::FieldFault;
use crate::parts::Parts;
use kinds::kind::Kind;
use kinds::notation::Notation;

// The code that a text stands for, if it is a word of the kind. The empty text is none.
fn code_of<K: Kind + Notation>(word: &[u8]) -> Option<u8>
    ensures code { result ≡ code_in K.Kind.meaning.codes K.Notation.words word.now }
    ensures small { IfSome result (λ c. c < 64) }
{
    if word.is_empty() {
        return None;
    }
    K::code(word).filter(|code| *code < K::count())
}

/// Reads a field of words parted by `/`: the set of their codes, as bits. An empty field is the empty set.
pub fn set_of<K: Kind + Notation>(field: &[u8]) -> Result<u64, FieldFault>
    ensures set { result ≡ set_in (code_in K.Kind.meaning.codes K.Notation.words) field.now }
    ensures of_kind { IfOk result (λ s. s < 2 ^ K.Kind.meaning.codes) }
    ensures named { IfOk result (λ s. (c : ℕ) → Decides (has s c) (Names (code_in K.Kind.meaning.codes K.Notation.words) field.now c)) }
{
    let mut set = 0;
    if field.is_empty() {
        return Ok(set);
    }
    for word in Parts::new(field, b'/') {
        let code = code_of::<K>(word).ok_or(FieldFault::NotWord)?;
        set |= 1 << code;
    }
    Ok(set)
}
