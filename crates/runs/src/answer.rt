// What the calls of a script answer.
ghost use Rattle.std.specs.Prelude.{◌≡◌};
ghost use Rattle.std.specs.Option.{option_copied};
ghost use Rattle.runs.specs.Told.{sight_in, charge_in};

use sheets::closed::Shown;
use statements::entry::Entry;
use statements::fault::Fault;

/// What is shown: the values, one for each item, and what the show answers of them.
#[derive(Drop)]
pub struct Sight<V, C> {
    pub values: Vec<V>,
    pub shown: Shown<C>,
}

/// What a call of a script answers.
#[derive(Drop)]
pub enum Answer<V, C> {
    /// The call was not made: a draft takes no such call, or a closed sheet takes none.
    Unmade,
    /// The call was refused, and changed nothing.
    Refused(Fault),
    /// The call was carried out and has nothing to tell.
    Done,
    /// The number of the statement that was appended.
    Entered(u16),
    /// What a statement says, and whether it has been struck, which is no part of what it says.
    Looked(Entry, bool),
    /// How many steps were taken.
    Took(u32),
    /// What is shown.
    Shown(Sight<V, C>),
    /// The charge of a person.
    Charged(C),
}

impl<V, C> Answer<V, C> {
    /// What the call shows, if it does.
    pub fn sight(&self) -> Option<&Sight<V, C>>
        ensures { option_copied result ≡ sight_in self.now }
    {
        match self {
            Answer::Shown(sight) => Some(sight),
            _ => None,
        }
    }
}

impl<V, C: Copy> Answer<V, C> {
    /// The charge that the call tells, if it does.
    pub fn charge(&self) -> Option<C>
        ensures { result ≡ charge_in self.now }
    {
        match self {
            Answer::Charged(charge) => Some(*charge),
            _ => None,
        }
    }
}
