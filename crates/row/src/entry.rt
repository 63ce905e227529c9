// A row's numbers read, by its bytes alone.
// Kept: callers hold a table that changes and a row that counts up, so a struct of both would be made anew for each number.
ghost use Rattle.std.specs.Prelude.{◌≡◌, suc, ◌<◌, ◌≤◌, length};
ghost use Rattle.rules.specs.Limits.{most_rows};
ghost use Rattle.rules.specs.Conditions.{row_at, ticket_in, due_in, weight_in, kind_in, class_in};
ghost use Rattle.row.specs.Entry.{EntryIn};

use crate::row_at;
use numbers::read;
use sorts::{Round, Slot, Ticket, Weight};

// Kept: five readers, each with the definition of its number in its clause; one by place and width would move both into every call.
pub fn ticket_in(table: &[u8], row: usize) -> u32
    requires { (row < most_rows) × (row_at (suc row) ≤ length table.now) }
    ensures { result ≡ ticket_in table.now row }
{
    read::<4>(table, row_at(row) + Round::TICKET_AT)
}

pub fn due_in(table: &[u8], row: usize) -> u32
    requires { (row < most_rows) × (row_at (suc row) ≤ length table.now) }
    ensures { result ≡ due_in table.now row }
{
    read::<2>(table, row_at(row) + Round::DUE_AT)
}

pub fn weight_in(table: &[u8], row: usize) -> u32
    requires { (row < most_rows) × (row_at (suc row) ≤ length table.now) }
    ensures { result ≡ weight_in table.now row }
{
    read::<4>(table, row_at(row) + Round::WEIGHT_AT)
}

// 1 for a kept blank, 0 for a frame.
// Kept: any byte may stand here in a table that is not judged yet, so a kind is a number and no enum.
pub fn kind_in(table: &[u8], row: usize) -> u8
    requires { (row < most_rows) × (row_at (suc row) ≤ length table.now) }
    ensures { result ≡ kind_in table.now row }
{
    table[row_at(row) + Round::KIND_AT]
}

pub fn class_in(table: &[u8], row: usize) -> u32
    requires { (row < most_rows) × (row_at (suc row) ≤ length table.now) }
    ensures { result ≡ class_in table.now row }
{
    read::<1>(table, row_at(row) + Round::CLASS_AT)
}

#[derive(Clone, Copy)]
pub struct Numbers {
    pub ticket: Ticket,
    pub due: Slot,
    pub weight: Weight,
}

pub fn numbers_at(table: &[u8], row: usize) -> Numbers
    requires { (row < most_rows) × (row_at (suc row) ≤ length table.now) }
    ensures { EntryIn table.now row result }
{
    Numbers {
        ticket: Ticket(ticket_in(table, row)),
        due: Slot(due_in(table, row)),
        weight: Weight(weight_in(table, row)),
    }
}
