// How kinds are written: letters and relation words.
ghost use Rattle.std.specs.Prelude.{◌≡◌, ℕ, true, List, [], length, slice_index_or};
ghost use Rattle.std.specs.List.{list_all};
ghost use Rattle.kinds.specs.Words.{read, writable, Unambiguous, Named};

use crate::kind::Kind;

/// How a kind is written in files and reports: its letter, and the words of its base relations in the order of their codes.
pub trait Notation {
    /// The letter, as a byte.
    ghost initial: { ℕ };

    /// The words, as lists of bytes.
    ghost words: { List (List ℕ) };

    /// The letter of the kind, as files and reports have it: a byte, so that it is compared and put with no other step.
    fn letter() -> u8
        ensures { result ≡ initial };

    /// The word of a base relation; a number that is no code has the empty word. A code is a number in each kind, so that it can have no
    /// `Display` of its own, and no `TryFrom` a text.
    fn word<'a>(code: u8) -> &'a str
        ensures { result.now ≡ slice_index_or words code [] };

    /// The code that the word stands for, or none.
    fn code(word: &[u8]) -> Option<u8>
        ensures { result ≡ read words word.now };

    /// No two words are alike.
    ghost unambiguous: { Unambiguous words };
}

/// A kind whose notation is whole, so that files can say each of its base relations.
pub trait WholeNotation: Kind + Notation {
    /// Each base relation has a word, and no other number has one.
    ghost worded: { length Self.Notation.words ≡ Self.Kind.meaning.codes };

    /// A line of a file can hold each word.
    ghost written: { list_all writable Self.Notation.words ≡ true };

    /// A text is read as a code exactly if it is the code's word.
    ghost named: { Named Self.Notation.words };
}
