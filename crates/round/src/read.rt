// A sound table's rows read: ticket, due slot, weight, kind, class, and the bucket of a due slot.
ghost use Rattle.std.specs.Prelude.{◌≡◌, ◌-◌, ◌≤◌, ◌<◌, min};
ghost use Rattle.rules.specs.Table.{round_in};
ghost use Rattle.round.specs.Rows.{Ready, TicketAt, DueAt, WeightAt, KeptAt, ClassAt};

use row::entry::{class_in, due_in, kind_in, ticket_in, weight_in};
use sorts::{Round, Ticket};

// The last bucket: all rows due later count there, too.
pub fn top_of(round: Round) -> usize
    requires { round.slot.0 ≤ round.last.0 }
    ensures { result ≡ min round.used (round.last.0 - round.slot.0) }
{
    round.used.min((round.last.0 - round.slot.0) as usize)
}

// A sound table in whose round a slot is left, with its head as a value.
#[derive(Clone, Copy)]
pub struct Sound<'a> {
    pub table: &'a [u8],
    pub round: Round,
    ghost ready: { Ready table.now round },
}

impl<'a> Sound<'a> {
    pub fn ticket_at(&self, row: usize) -> Ticket
        requires { row < self.now.round.used }
        ensures { TicketAt (round_in self.now.table.now) row result.0 }
    {
        Ticket(ticket_in(self.table, row))
    }

    pub fn due_at(&self, row: usize) -> u32
        requires { row < self.now.round.used }
        ensures { DueAt (round_in self.now.table.now) row result }
    {
        due_in(self.table, row)
    }

    pub fn weight_at(&self, row: usize) -> u32
        requires { row < self.now.round.used }
        ensures { WeightAt (round_in self.now.table.now) row result }
    {
        weight_in(self.table, row)
    }

    // Whether the row holds a kept blank in place of a frame.
    pub fn is_kept(&self, row: usize) -> bool
        requires { row < self.now.round.used }
        ensures { KeptAt (round_in self.now.table.now) row result }
    {
        kind_in(self.table, row) == 1
    }

    pub fn class_at(&self, row: usize) -> u32
        requires { row < self.now.round.used }
        ensures { ClassAt (round_in self.now.table.now) row result }
    {
        class_in(self.table, row)
    }
}
