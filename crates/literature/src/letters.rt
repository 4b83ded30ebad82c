// The letters of the literature, read as base relations.
ghost use Rattle.std.specs.Prelude.{◌≡◌, IsErr, MatchOption, option_copied};
ghost use Rattle.std.specs.Fn.{FnReturnsAt};
ghost use Rattle.kinds.specs.Words.{read};
ghost use Rattle.literature.specs.Letters.{Entered, Named, PartNamed, PartUnread, SomePart, Unnamed, Unread, WordNamed, meant, meant_code, parts};
ghost use Rattle.literature.specs.Relations.{UnionOf};

use crate::algebra::single;
use crate::published::Letter;
use anyhow::Context;
use kinds::notation::Notation;

/// The letters of a publication.
#[derive(Clone, Copy)]
pub struct Letters<'a>(pub &'a [Letter]);

impl Letters<'_> {
    /// The words that a letter stands for, or none where it is not among the letters.
    fn meant(self, text: &str) -> Option<&'static str>
        ensures { option_copied result ≡ meant self.entry.0.now text.now }
    {
        self.0
            .iter()
            .find(|Letter(letter, _)| *letter == text)
            .map(|Letter(_, words)| *words)
    }

    /// The code of the base relation that a letter stands for, or none where it stands for no single one.
    pub(crate) fn code<K: Notation>(self, text: &str) -> Option<u8>
        ensures { result ≡ meant_code K.words self.entry.0.now text.now }
    {
        K::code(self.meant(text)?.as_bytes())
    }

    /// The code of the base relation that a letter stands for; an error where it stands for no single one.
    pub(crate) fn read<K: Notation>(self, text: &str) -> anyhow::Result<u8>
        ensures { MatchOption (meant_code K.words self.entry.0.now text.now) (IsErr result) (λ code. result ≡ Ok code) }
    {
        self.code::<K>(text)
            .context("a published letter cannot be read")
    }

    /// The set that a published entry gives: a letter, or several that are parted by spaces. None where one is unknown.
    pub(crate) fn set<K: Notation>(self, entry: &str) -> Option<u64>
        ensures { MatchOption result (Unread K.words self.entry.0.now entry.now) (λ set. Entered K.words self.entry.0.now entry.now set) }
    {
        if let Some(words) = self.meant(entry) {
            return named::<K>(words);
        }
        union_of(
            entry,
            |letter|
                ensures { MatchOption result (PartUnread K.words self.entry.0.now letter.now) (λ set. PartNamed K.words self.entry.0.now letter.now set) }
            { named::<K>(self.meant(letter)?) },
        )
    }
}

/// The set of the base relations that the words name, or none where one is no word of the kind.
fn named<K: Notation>(words: &str) -> Option<u64>
    ensures { MatchOption result (Unnamed K.words words.now) (λ set. Named K.words words.now set) }
{
    union_of(
        words,
        |word|
            ensures { MatchOption result (read K.words word.now ≡ None) (λ one. WordNamed K.words word.now one) }
        { Some(single(K::code(word.as_bytes())?)) },
    )
}

/// The union of the sets that a function gives at the parts of a text between its spaces, or none where it gives none at one of them.
fn union_of<F: Fn(&str) -> Option<u64>>(text: &str, gives: F) -> Option<u64>
    requires { F.IsAlwaysCallable gives }
    ensures { MatchOption result (SomePart text.now (λ part. FnReturnsAt F.Fn gives part None)) (λ set. UnionOf (λ part given. FnReturnsAt F.Fn gives part (Some given)) (parts text.now) set) }
{
    let mut set = 0;
    for part in text.split(' ') {
        set |= gives(part)?;
    }
    Some(set)
}
