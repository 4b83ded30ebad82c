// The calls of a script.
use statements::entry::Entry;

/// A call of a script. A draft takes the first six, a closed sheet the last four.
#[derive(Clone, Copy)]
pub enum Call {
    /// Sets the number of items and empties the list.
    Size(u32),
    /// Appends a statement.
    Enter(Entry),
    /// Strikes the statement with a number.
    Strike(u32),
    /// Gives the statement with a number another weight.
    Reweigh(u32, u32),
    /// Reads the statement with a number.
    Look(u32),
    /// Closes the draft.
    Close,
    /// Takes up to so many steps.
    Search(u32),
    /// Shows the values on a new page of so many places.
    Show(u8),
    /// Tells the charge of a person.
    Charge(u32),
    /// Gives the draft back.
    Reopen,
}
