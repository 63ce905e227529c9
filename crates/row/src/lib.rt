// A row's bytes: judged, read and written. No other crate knows where in a row its numbers stand.
#![tactic(auto)]

ghost use Rattle.std.specs.Prelude.{◌≡◌, ◌≤◌};
ghost use Rattle.rules.specs.Limits.{most_rows};
ghost use Rattle.rules.specs.Conditions.{row_at};

pub mod judge; // judge.rt: the judge of one row
pub mod entry; // entry.rt: a row's numbers read
pub mod write; // write.rt: a row's numbers written

use sorts::Round;

// Where a row begins; the place behind the last row, too.
pub fn row_at(row: usize) -> usize
    requires { row ≤ most_rows }
    ensures { result ≡ row_at row }
{
    Round::HEAD_SIZE + Round::ROW_SIZE * row
}
