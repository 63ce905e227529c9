// Who stands in for a row of the plan, as a value: another row, or a blank.
#![tactic(auto)]

use sorts::Slot;

// A row by its index, or the blank due at a slot.
// Kept: replies::Substitute has a ticket for the row; one enum over both would ask for its type parameter in every specification here.
#[derive(Clone, Copy)]
pub enum Sub {
    Row(usize),
    Blank(Slot),
}
