// The sheet of a run, in one of its two states.
use kinds::kind::Kind;
use sheets::closed::Closed;
use sheets::held::Draft;
use tallies::tally::Tally;

/// What a run has at a place: a draft, or a closed sheet.
#[derive(Drop)]
pub enum State<K: Kind, T: Tally> {
    Drafting(Draft<K, T>),
    Closing(Closed<K, T>),
}
