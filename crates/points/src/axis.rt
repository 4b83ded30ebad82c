// The marks of items on an axis, and their ranks.
ghost use Rattle.std.specs.Prelude.{◌≡◌, ℕ, ◌≤◌, [], count_by};
ghost use Rattle.points.specs.Points.{is_lt, told};
ghost use Rattle.points.specs.Ranks.{RankLemma};
ghost use Rattle.points.specs.Marks.{stands, in_scenario, of_item, mark_rank, order_of, drawn};

use crate::scenario::entry;
use crate::set::contains;
use std::cmp::Ordering;

// A mark of an item on an axis: the item, and which of its marks.
type Mark = (u8, usize);

/// How a mark of one item stands to a mark of a later item: before it under the codes of one set, after it under the other codes of
/// the other set, and where it is under the rest.
#[derive(Clone, Copy)]
pub struct Order {
    pub before: u64,
    pub after: u64,
}

/// An axis on which each item has MARKS marks, in ascending order: orders[s][t] says how mark s of an item stands to mark t of a
/// later item.
#[derive(Clone, Copy)]
pub struct Axis<const MARKS: usize> {
    pub orders: [[Order; MARKS]; MARKS],
    // So that a rank fits: 255 items have at most 255 marks each.
    ghost few: { MARKS ≤ 255 },
}

impl<const MARKS: usize> Axis<MARKS> {
    // How mark s of an item stands to mark t of a later one, or the order of two empty sets where there are no such marks.
    fn order(&self, s: usize, t: usize) -> Order
        ensures { result ≡ order_of self.now.orders s t }
    {
        let none = Order {
            before: 0,
            after: 0,
        };
        // A match: a chain with a closure was tried, and its proof did not close, since in code over a const parameter nothing is known
        // of what a closure answers.
        match self.orders.get(s) {
            Some(row) => row.get(t).copied().unwrap_or(none),
            None => none,
        }
    }

    // How mark s of an item stands to mark t of a later one under the code.
    fn compare(&self, code: u8, s: usize, t: usize) -> Ordering
        ensures { result ≡ told (drawn self.now.orders code s t) }
    {
        let order = self.order(s, t);
        if contains(order.before, code) {
            Ordering::Less
        } else if contains(order.after, code) {
            Ordering::Greater
        } else {
            Ordering::Equal
        }
    }

    // How mark x stands to mark y in the scenario.
    fn stands(&self, scenario: &[u8], x: Mark, y: Mark) -> Ordering
        ensures { result ≡ told (stands (in_scenario (drawn self.now.orders) scenario.now) x y) }
    {
        let ((k, s), (i, t)) = (x, y);
        match k.cmp(&i) {
            Ordering::Less => self.compare(entry(scenario, k, i), s, t),
            Ordering::Equal => s.cmp(&t),
            Ordering::Greater => self.compare(entry(scenario, i, k), t, s).reverse(),
        }
    }

    // How many marks of item k stand before mark y in the scenario. It is counted in a loop: a chain was tried, and its proof did not
    // close, for the reason given at `order`.
    fn preceding(&self, scenario: &[u8], k: u8, y: Mark) -> u32
        ensures is { result ≡ count_by (λ x. is_lt (stands (in_scenario (drawn self.now.orders) scenario.now) x y)) (of_item k MARKS []) }
        ensures few { result ≤ 255 }
    {
        let mut sum = 0;
        for s in 0..MARKS {
            if self.stands(scenario, (k, s), y).is_lt() {
                sum += 1;
            }
        }
        sum
    }

    /// The rank of mark t of item i in the scenario: how many of all marks of the items stand strictly before it. The rank lemma:
    /// ranks compare as the marks do, for any number of marks and any consistent comparison. Items and scenario are told one by one, since
    /// a scenario may be too short for its items.
    pub fn rank(&self, items: u8, scenario: &[u8], i: u8, t: u8) -> u32
        ensures compares { RankLemma (ℕ × ℕ) }
        ensures is { result ≡ mark_rank (drawn self.now.orders) MARKS items scenario.now i t }
    {
        // A loop: a chain was tried, and its proof did not close, for the reason given at `order`.
        let mut sum = 0;
        for k in 0..items {
            sum += self.preceding(scenario, k, (i, usize::from(t)));
        }
        sum
    }
}
