// Parts of a text between single bytes.
ghost use Rattle.std.specs.Prelude.{◌≡◌, ◌≢◌, ℕ, ◌+◌, ◌<◌, ◌≤◌, length, ◌==◌, count_by, All, slice_index};
ghost use Rattle.std.specs.Iterator.{YieldsFirstRef, item_count};
ghost use Rattle.std.specs.List.{join_with_byte};
ghost use Rattle.files.specs.Parts.{parted, lines, left, Lacks, Lined, Split, GivesLine};

/// Gives the parts of a text between the bytes `by`, one after another. The library's `split` tells how many parts there are and that
/// none has the byte, but that the parts joined are the text only one step at a time; `Parts::new` promises it of all that are left.
#[derive(Drop)]
pub struct Parts<'a> {
    by: u8,
    rest: Option<&'a [u8]>,
}

/// Gives the lines of a text, one after another. The library's `split` has an empty part after a last line feed, which is no line, and
/// can't be copied, as a load that may be refused needs.
#[derive(Clone, Copy)]
pub struct Lines<'a> {
    rest: &'a [u8],
}

/// Where the byte first stands in the text, or the text's length: a number and no `Option`, since it is as it was promised when
/// `split_once` called it, which asks `position` itself now.
pub fn first_place(text: &[u8], b: u8) -> usize
    ensures within { result ≤ length text.now }
    ensures before { (k : ℕ) → k < result → slice_index text.now k ≢ b }
    ensures found { result < length text.now → slice_index text.now result ≡ b }
{
    text.iter().position(|x| *x == b).unwrap_or(text.len())
}

/// What stands before the first byte `by`, and what after it; the whole text where there is none.
pub fn split_once<'a>(text: &'a [u8], by: u8) -> (&'a [u8], Option<&'a [u8]>)
    ensures { Split by text.now result.0.now result.1 }
{
    match text.iter().position(|x| *x == by) {
        Some(i) => (&text[..i], Some(&text[i + 1..])),
        None => (text, None),
    }
}

impl<'a> Parts<'a> {
    /// All parts of the text are to come.
    pub fn new(text: &'a [u8], by: u8) -> Parts<'a>
        ensures parts { left result ≡ parted by text.now }
        ensures joined { join_with_byte by (left result) ≡ text.now }
        ensures apart { All (Lacks by) (left result) }
        ensures count { length (left result) ≡ count_by (λ b. b == by) text.now + 1 }
    {
        Parts {
            by,
            rest: Some(text),
        }
    }
}

impl<'a> Iterator for Parts<'a> {
    type Item = &'a [u8];

    ghost next_gives = { YieldsFirstRef left };

    ghost remaining = { item_count left };

    /// The next part, or that there is none.
    fn next(&mut self) -> Option<&'a [u8]> {
        let text = self.rest?;
        let (part, rest) = split_once(text, self.by);
        self.rest = rest;
        Some(part)
    }
}

impl<'a> Lines<'a> {
    /// All lines of the text are to come.
    pub fn new(rest: &'a [u8]) -> Lines<'a>
        ensures rest { result.rest.now ≡ rest.now }
        ensures lined { Lined rest.now }
    {
        Lines { rest }
    }
}

impl<'a> Iterator for Lines<'a> {
    type Item = &'a [u8];

    ghost next_gives = { GivesLine };

    ghost remaining = { item_count (λ ls. lines ls.rest.now) };

    /// The next line, without its line feed, or that there is none.
    fn next(&mut self) -> Option<&'a [u8]> {
        if self.rest.is_empty() {
            return None;
        }
        let (line, rest) = split_once(self.rest, b'\n');
        self.rest = rest.unwrap_or(&[]);
        Some(line)
    }
}
