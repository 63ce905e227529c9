// A row's numbers written.
ghost use Rattle.std.specs.Prelude.{◌≡◌, suc, ◌+◌, ◌<◌, ◌≤◌, length};
ghost use Rattle.std.proofs.lemmas.List.Edits.{sets};
ghost use Rattle.rules.specs.Limits.{row_size, most_rows};
ghost use Rattle.rules.specs.Rows.{framed};
ghost use Rattle.rules.specs.Conditions.{row_at};
ghost use Rattle.row.specs.Numbers.{row_numbers};
ghost use Rattle.row.specs.Written.{with_shift, with_weight, with_kept};

use crate::row_at;
use numbers::write;
use sorts::{Class, Round, Slot, Ticket, Weight};

// Kept: a table and a row each on their own, since the table is written; the row's bounds stand in the clauses, as in entry.rt.
// The numbers of a frame's row written; its zero bytes stay as they are.
pub fn write_row(
    table: &mut [u8],
    at: usize,
    ticket: Ticket,
    due: Slot,
    weight: Weight,
    class: Class,
)
    requires { at + row_size ≤ length table.old }
    ensures { table.new ≡ sets table.old at (row_numbers ticket.0 (framed due.0 weight.0 class.0)) }
{
    write::<4>(table, at + Round::TICKET_AT, ticket.0);
    write::<2>(table, at + Round::DUE_AT, due.0);
    write::<4>(table, at + Round::WEIGHT_AT, weight.0);
    write::<1>(table, at + Round::KIND_AT, 0);
    write::<1>(table, at + Round::CLASS_AT, class.0);
}

// A shifted row in place: its due slot and weight; the rest stays.
pub fn write_shift(table: &mut [u8], row: usize, due: Slot, weight: Weight)
    requires { (row < most_rows) × (row_at (suc row) ≤ length table.old) }
    ensures { table.new ≡ with_shift table.old row due.0 weight.0 }
{
    let at = row_at(row);
    write::<2>(table, at + Round::DUE_AT, due.0);
    write::<4>(table, at + Round::WEIGHT_AT, weight.0);
}

// The substitute, likewise: its weight.
pub fn write_weight(table: &mut [u8], row: usize, weight: Weight)
    requires { (row < most_rows) × (row_at (suc row) ≤ length table.old) }
    ensures { table.new ≡ with_weight table.old row weight.0 }
{
    write::<4>(table, row_at(row) + Round::WEIGHT_AT, weight.0);
}

// A kept blank, likewise: its due slot, weight, kind and class.
pub fn write_kept(table: &mut [u8], row: usize, due: Slot, weight: Weight)
    requires { (row < most_rows) × (row_at (suc row) ≤ length table.old) }
    ensures { table.new ≡ with_kept table.old row due.0 weight.0 }
{
    write_shift(table, row, due, weight);
    let at = row_at(row);
    write::<1>(table, at + Round::KIND_AT, 1);
    write::<1>(table, at + Round::CLASS_AT, Round::CLASS.0);
}
