// The trait of a kind of item.
ghost use Rattle.std.specs.Prelude.{◌≡◌, ℕ, ◌<◌, ◌≤◌, Bool, List, length, Decides, slice_index_or};
ghost use Rattle.kinds.specs.Meaning.{Meaning, Laws, Partition, Involutive, Fits, Fitting, Realises, Realisation};
ghost use Rattle.kinds.specs.Pages.{Written};

/// A kind of item: the values that items may have, and the base relations between them. A base relation is told by its code.
pub trait Kind {
    /// What an item is given.
    type Value: Copy;

    /// How many base relations there are, 1 to 64.
    const CODES: u8;

    /// Lawful values, and the base relation that holds from one to another.
    ghost meaning: { Meaning Self.Value };

    /// Whether a triple of codes fits.
    ghost fit: { ℕ → ℕ → ℕ → Bool };

    /// The value that is written for an item, by the number of items, the scenario and the item.
    ghost values: { ℕ → List ℕ → ℕ → Self.Value };

    /// The number of base relations.
    fn count() -> u8
        ensures { result ≡ meaning.codes };

    /// The code of the base relation from the first value to the second. For values that are not lawful it is the number that the
    /// kind's definition gives.
    fn relation(first: Self::Value, second: Self::Value) -> u8
        ensures { result ≡ meaning.relation first second };

    /// The code of the converse; a number that is no code is its own.
    fn converse(code: u8) -> u8
        ensures { result ≡ meaning.converse code };

    /// Whether lawful values u, v and w exist, among all natural numbers, with c from u to v, d from v to w and e from u to w.
    /// A number that is no code fits in no triple. The three are numbers, as in the algebra; a struct of them would be taken apart at
    /// each use.
    fn fits(c: u8, d: u8, e: u8) -> bool
        ensures test { result ≡ fit c d e }
        ensures exactly { Decides result (Fits meaning c d e) };

    /// The value of one item of a scenario. Items and scenario are told one by one, since a scenario may be too short for its items.
    fn value(items: u8, scenario: &[u8], item: u8) -> Self::Value
        ensures { result ≡ values items scenario.now item };

    /// Writes the values of the items to the front of the page, as many as it has places for; the rest of the page stays. For 1 to
    /// 12 items and a page that is long enough, a scenario whose triples all fit is had by the values on the page.
    fn write(items: u8, scenario: &[u8], page: &mut [Self::Value])
        ensures written { Written items (values items scenario.now) page.old page.new }
        ensures realised { 1 ≤ items → items ≤ 12 → items ≤ length page.old → Fitting meaning items scenario.now → (other : Self.Value) → Realises meaning items scenario.now (λ i. slice_index_or page.new i other) }
    {
        for (i, place) in page.iter_mut().enumerate() {
            // The loop ends with the items, however long the page is. With `zip(0..items)` in the place of the test and the cast, a proof
            // knows none of the values written after the loop; with `take`, an invariant has no name for i.
            if i >= usize::from(items) {
                break;
            }
            // The cast keeps i, which is below the number of items.
            *place = Self::value(items, scenario, i as u8);
        }
    }

    /// Exactly one base relation holds; code 0 from a value to itself; the converse the other way.
    ghost lawful: { Laws meaning };

    /// The converse of the converse is the base relation itself.
    ghost involutive: { Involutive meaning };

    /// A triple fits exactly where lawful values have it.
    ghost composes: { (c d e : ℕ) → Decides (fit c d e) (Fits meaning c d e) };

    /// The values that are written have the scenario.
    ghost realises: { Realisation meaning values };
}

/// A kind whose base relations are a partition scheme: none is empty, and code 0 is the identity.
pub trait Scheme: Kind {
    ghost partition: { Partition Self.Kind.meaning };
}
