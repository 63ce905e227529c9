// The table when its current slot is over: rows due in it leave, and the one that goes; the others close up, and the slot moves on.
#![tactic(auto)]

ghost use Rattle.std.specs.Prelude.{◌≡◌, ◌≢◌, cond, suc, ◌≤◌, ◌<◌, leb, length};
ghost use Rattle.rules.specs.Conditions.{row_at};
ghost use Rattle.rules.specs.Table.{table_refusal};
ghost use Rattle.head.specs.Head.{HeadOf};
ghost use Rattle.closing.specs.Close.{DueNow, DueBeside, gone_ticket, NextDue, Search, NextLeaving, LeftBehind, ClosedRows, closed_up};

use numbers::write;
use row::entry::due_in;
use row::row_at;
use runs::move_run;
use sorts::{Round, Slot};
use zeros::clear;

// The first row due in a slot, from one up to another; the latter if none is.
// Kept: the latter is a number and no None, since a search ends there alike whether a row was found or not (NextDue, NextLeaving).
fn next_due(table: &[u8], from: usize, to: usize, slot: Slot) -> usize
    requires { (from ≤ to) × (to ≤ 1024) × (row_at to ≤ length table.now) }
    ensures { NextDue slot.0 from to table.now result }
{
    for i in from..to {
        if due_in(table, i) == slot.0 {
            return i;
        }
    }
    to
}

// Where a search from a row on ends: at the row that goes, if it is not behind, or past the last.
fn search_end(from: usize, used: usize, gone: usize) -> usize
    ensures { result ≡ cond (leb from gone) gone used }
{
    if from <= gone {
        return gone;
    }
    used
}

// The next row that leaves, or how many there are. With no row due now left beside the one that goes there is nothing to search.
fn next_leaving(
    table: &[u8],
    from: usize,
    used: usize,
    slot: Slot,
    left: usize,
    gone: usize,
) -> usize
    requires { Search slot.0 gone from used left table.now }
    ensures { NextLeaving slot.0 gone from used table.now result }
{
    let end = search_end(from, used, gone);
    if left == 0 {
        return end;
    }
    next_due(table, from, end, slot)
}

// How many rows due now there can be beside the one that goes: this one need not be searched for.
// Kept: the table changes under what calls this, so a struct that holds it with these facts would break at the first store.
fn left_beside(table: &[u8], round: Round, expiring: usize, gone: usize) -> usize
    requires { (table_refusal table.now ≡ 0) × HeadOf table.now round × (gone ≤ round.used) × DueNow table.now expiring }
    ensures { DueBeside table.now gone result }
{
    if gone < round.used {
        if due_in(table, gone) == round.slot.0 {
            return expiring - 1;
        }
    }
    expiring
}

// How many of them can be behind a row that leaves, where so many can be from it on.
fn left_behind(row: usize, gone: usize, left: usize) -> usize
    requires { row ≢ gone → 1 ≤ left }
    ensures { LeftBehind gone row left result }
{
    if row == gone {
        return left;
    }
    left - 1
}

// The rows that stay, moved to the front in runs between rows that leave. Answers how many.
fn close_rows(table: &mut [u8], round: Round, expiring: usize, gone: usize) -> usize
    requires { (table_refusal table.old ≡ 0) × HeadOf table.old round × (gone ≤ round.used) × DueNow table.old expiring }
    ensures { ClosedRows (suc round.slot.0) (gone_ticket table.old gone) table.old table.new result }
{
    let used = round.used;
    let mut left = left_beside(table, round, expiring, gone);
    let mut i = next_leaving(table, 0, used, round.slot, left, gone);
    let mut kept = i;
    // Kept: the walk goes from each row that leaves to the next one, so no range counts it.
    while i < used {
        left = left_behind(i, gone, left);
        let from = i + 1;
        let next = next_leaving(table, from, used, round.slot, left, gone);
        move_run(table, from, next, kept);
        kept += next - from;
        i = next;
    }
    kept
}

// The slot moves on: rows due in it leave, at most expiring, and the row at gone; used is no row's place.
// Kept: a search ends at gone or at used alike, so an Option of gone would be turned into this number first.
pub fn close_up(table: &mut [u8], round: Round, expiring: usize, gone: usize)
    requires { (table_refusal table.old ≡ 0) × HeadOf table.old round × (gone ≤ round.used) × DueNow table.old expiring }
    ensures { table.new ≡ closed_up (gone_ticket table.old gone) table.old }
{
    let kept = close_rows(table, round, expiring, gone);
    let end = row_at(round.used);
    let from = row_at(kept);
    clear(&mut table[..end], from);
    write::<2>(table, Round::SLOT_AT, round.slot.0 + 1);
    write::<2>(table, Round::USED_AT, kept as u32);
}
