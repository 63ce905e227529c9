// The used rows in turn: judged, and counted by bucket.
ghost use Rattle.std.specs.Prelude.{◌≡◌, true};
ghost use Rattle.round.specs.Buckets.{LentCounts};
ghost use Rattle.round.specs.Scan.{RowsLent, all_judged, RowsSay};

use crate::read::top_of;
use kinds::all_pass;
use row::judge::see_row;
use row::row_at;
use seen::{Seen, row_follows};
use sorts::{Round, Ticket};

// The judge of every used row, in turn; where they are to be counted, each adds 2,048 in its bucket.
pub fn rows_pass<const COUNTED: bool>(table: &[u8], counts: &mut [u32], round: Round) -> bool
    requires { RowsLent table.now round × (COUNTED ≡ true → LentCounts table.now counts.old) }
    ensures judged { result ≡ all_judged table.now round }
    ensures counted { COUNTED ≡ true → RowsSay table.now round counts.new result }
{
    if round.used == 0 {
        return true;
    }
    if round.last.0 < round.slot.0 {
        return false;
    }
    let span = round.last.0 - round.slot.0;
    let top = top_of(round);
    let mut seen = Seen {
        ticket: Ticket(0),
        ahead: 0,
        weights: 0,
        plain: 0,
    };
    for i in 0..round.used {
        let a = row_at(i);
        let e = a + Round::ROW_SIZE;
        let before = seen.ticket;
        seen = see_row(&table[a..e], round.slot, seen);
        if !row_follows(before, seen, span) {
            return false;
        }
        if COUNTED {
            let b = (seen.ahead as usize).min(top);
            counts[b] += 2048;
        }
    }
    all_pass(table, round.used, round.next, seen)
}
