// The head of a table: its numbers read, judged and written.
#![tactic(auto)]

ghost use Rattle.std.specs.Prelude.{◌≡◌, ◌++◌, ◌≤◌, length, drop};
ghost use Rattle.rules.specs.Limits.{head_size, most_rows, head_zeros_at};
ghost use Rattle.rules.specs.Table.{rows_of};
ghost use Rattle.theory.specs.Judge.{head_judged};
ghost use Rattle.head.specs.Head.{HeadOf};
ghost use Rattle.head.specs.Numbers.{head_numbers};
ghost use Rattle.sorts.specs.Tail.{tail_of};

use limits::head_is_good;
use numbers::{read, write};
use sorts::{Round, Slot, Ticket};

// How many rows a table has room for.
pub fn rows_of(table: &[u8]) -> usize
    requires { head_size ≤ length table.now }
    ensures { result ≡ rows_of table.now }
{
    (table.len() - Round::HEAD_SIZE) / Round::ROW_SIZE
}

// The head as a value, whatever it holds.
pub fn read_head(table: &[u8]) -> Round
    requires { head_size ≤ length table.now }
    ensures { HeadOf table.now result }
{
    Round {
        slot: Slot(read::<2>(table, Round::SLOT_AT)),
        last: Slot(read::<2>(table, Round::LAST_AT)),
        next: Ticket(read::<4>(table, Round::NEXT_AT)),
        sealed: read::<1>(table, Round::SEALED_AT),
        used: read::<2>(table, Round::USED_AT) as usize,
        room: rows_of(table),
    }
}

// Whether the numbers of a head are within the limits and its last five bytes zero.
pub fn head_is_sound(table: &[u8], round: Round) -> bool
    requires { (head_size ≤ length table.now) × HeadOf table.now round }
    ensures { result ≡ head_judged table.now }
{
    let zeros = (read::<1>(table, Round::HEAD_ZEROS_AT) == 0)
        & (read::<4>(table, Round::HEAD_ZEROS_AT + 1) == 0);
    head_is_good(round) & zeros
}

// A round's numbers written into the head; its zero bytes stay as they are.
pub fn write_head(table: &mut [u8], round: Round)
    requires { (head_zeros_at ≤ length table.old) × (round.used ≤ most_rows) }
    ensures { table.new ≡ head_numbers round.slot.0 round.last.0 round.next.0 round.used (tail_of round)
        ++ drop head_zeros_at table.old }
{
    write::<2>(table, Round::SLOT_AT, round.slot.0);
    write::<2>(table, Round::LAST_AT, round.last.0);
    write::<4>(table, Round::NEXT_AT, round.next.0);
    write::<2>(table, Round::USED_AT, round.used as u32);
    write::<1>(table, Round::SEALED_AT, round.sealed);
}
