// What the calls answer where they are accepted: what went out in which step, and who stands in for a row.
#![tactic(auto)]

use sorts::{Slot, Ticket};

// What went out; a kept blank goes out as an empty slot.
#[derive(Clone, Copy, Debug, PartialEq, Eq)]
pub enum Out {
    Silence,
    Frame(Ticket),
    KeptBlank(Ticket),
}

#[derive(Clone, Copy, Debug, PartialEq, Eq)]
pub enum Step {
    Ordinary(Out),
    Leap(Out),
}

// Who stands in for a row of the plan: another row, or the blank due at a slot.
#[derive(Clone, Copy, Debug, PartialEq, Eq)]
pub enum Substitute {
    Row(Ticket),
    Blank(Slot),
}
