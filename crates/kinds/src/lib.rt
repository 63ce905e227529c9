// What is asked once, of all used rows: their bounds and kinds. The kinds take a pass of their own, only where a blank is kept.
#![tactic(auto)]

ghost use Rattle.std.specs.Prelude.{◌≡◌, ◌≤◌, length};
ghost use Rattle.rules.specs.Limits.{most_rows};
ghost use Rattle.rules.specs.Conditions.{row_at};
ghost use Rattle.kinds.specs.Kinds.{kinds_good, FramesSeen, passing};

use row::judge::kind_is_good;
use row::row_at;
use seen::{Seen, frames_pass, numbers_pass, words_pass};
use sorts::{Round, Ticket};

// Where all rows are frames, one test of their words tells it.
pub fn all_pass(table: &[u8], used: usize, next: Ticket, seen: Seen) -> bool
    requires { (used ≤ most_rows) × (row_at used ≤ length table.now) × FramesSeen table.now used seen }
    ensures { result ≡ passing table.now used next.0 seen }
{
    if !numbers_pass(seen, next) {
        return false;
    }
    if frames_pass(seen) {
        return true;
    }
    if !words_pass(seen) {
        return false;
    }
    kinds_are_good(table, used)
}

// From the last row back.
fn kinds_are_good(table: &[u8], used: usize) -> bool
    requires { (used ≤ most_rows) × (row_at used ≤ length table.now) }
    ensures { result ≡ kinds_good table.now used }
{
    for i in (0..used).rev() {
        let at = row_at(i);
        if !kind_is_good(&table[at..at + Round::ROW_SIZE]) {
            return false;
        }
    }
    true
}
