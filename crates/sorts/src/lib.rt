// The four sorts of count, and a round's head as a value, with the limits and byte places.
#![tactic(auto)]

ghost use Rattle.std.specs.Prelude.{◌≡◌, ◌+◌, ◌<◌};
ghost use Rattle.rules.specs.Limits.{ticket_limit};

// Four sorts of count, so that none can stand in another's place.
#[derive(Clone, Copy, Debug, PartialEq, Eq)]
pub struct Slot(pub u32);

#[derive(Clone, Copy, Debug, PartialEq, Eq)]
pub struct Weight(pub u32);

#[derive(Clone, Copy, Debug, PartialEq, Eq)]
pub struct Ticket(pub u32);

#[derive(Clone, Copy, Debug, PartialEq, Eq)]
pub struct Class(pub u32);

// The head, with the rows that the table has room for.
#[derive(Clone, Copy)]
pub struct Round {
    pub slot: Slot,
    pub last: Slot,
    pub next: Ticket,
    // 1 for a sealed round, else 0.
    // Kept: a number, since read_head tells any byte that a table holds here, and head_is_good then judges it.
    pub sealed: u32,
    pub used: usize,
    pub room: usize,
}

impl Round {
    // The limits; every ticket is below TICKETS.
    pub const ROWS: usize = 1024;

    pub const LAST: Slot = Slot(4095);

    pub const WEIGHT: Weight = Weight(16777216);

    pub const TICKETS: Ticket = Ticket(16777216);

    pub const CLASS: Class = Class(3);

    // What works on a table is lent arrays, small ones for a table of at most FEW rows, which has at most FEW_SIZE bytes.
    pub const FEW: usize = 32;

    pub const FEW_SIZE: usize = 784;

    pub const FEW_PLACES: usize = 34;

    pub const PLACES: usize = 1026;

    // The sizes of head and row.
    pub const HEAD_SIZE: usize = 16;

    pub const ROW_SIZE: usize = 24;

    // Where each number of the head begins, and its zeros.
    pub const SLOT_AT: usize = 0;

    pub const LAST_AT: usize = 2;

    pub const NEXT_AT: usize = 4;

    pub const USED_AT: usize = 8;

    pub const SEALED_AT: usize = 10;

    pub const HEAD_ZEROS_AT: usize = 11;

    // Where each number of a row begins, and its zeros.
    pub const TICKET_AT: usize = 0;

    pub const DUE_AT: usize = 4;

    pub const WEIGHT_AT: usize = 6;

    pub const KIND_AT: usize = 10;

    pub const CLASS_AT: usize = 11;

    pub const ROW_ZEROS_AT: usize = 12;

    // A round just opened.
    pub fn new(last: Slot, room: usize) -> Round
        ensures { (result.slot.0 ≡ 0) × (result.last.0 ≡ last.0) × (result.next.0 ≡ 1) × (result.used ≡ 0) × (result.room ≡ room)
            × (result.sealed ≡ 0) }
    {
        Round {
            slot: Slot(0),
            last,
            next: Ticket(1),
            sealed: 0,
            used: 0,
            room,
        }
    }

    // The head once a frame is taken: the next ticket is given, and one more row in use.
    pub fn one_more(self) -> Round
        requires { (self.next.0 < ticket_limit) × (self.used < self.room) }
        ensures { (result.slot.0 ≡ self.slot.0) × (result.last.0 ≡ self.last.0) × (result.next.0 ≡ self.next.0 + 1)
            × (result.used ≡ self.used + 1) × (result.room ≡ self.room) × (result.sealed ≡ self.sealed) }
    {
        Round {
            next: Ticket(self.next.0 + 1),
            used: self.used + 1,
            ..self
        }
    }
}
