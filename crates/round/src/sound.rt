// The judge of a whole table, and the scan: the same, with the rows counted by bucket.
ghost use Rattle.std.specs.Prelude.{◌≡◌, true};
ghost use Rattle.round.specs.Judge.{JudgeSays, ScanAsks, ScanSays};

use crate::rows::rows_pass;
use head::{head_is_sound, read_head};
use limits::length_is_good;
use refusals::Refusal;
use row::row_at;
use sorts::Round;
use zeros::zeros_from;

// A sound table's head as a value; else BadLength or NotSound.
pub fn judge(table: &[u8]) -> Result<Round, Refusal>
    ensures { JudgeSays table.now result }
{
    judged::<false>(table, &mut [])
}

// Where a slot is left, counts gets 2,048 for each row in its bucket. Called by itself it would hold the whole head while it counts: two instructions a row more.
#[inline(always)]
pub fn scan(table: &[u8], counts: &mut [u32]) -> Result<Round, Refusal>
    requires { ScanAsks table.now counts.old }
    ensures { ScanSays table.now counts.new result }
{
    judged::<true>(table, counts)
}

// The judge, with the rows counted or not.
fn judged<const COUNTED: bool>(table: &[u8], counts: &mut [u32]) -> Result<Round, Refusal>
    requires { COUNTED ≡ true → ScanAsks table.now counts.old }
    ensures judged { JudgeSays table.now result }
    ensures counted { COUNTED ≡ true → ScanSays table.now counts.new result }
{
    if !length_is_good(table.len()) {
        return Err(Refusal::BadLength);
    }
    let round = read_head(table);
    if !head_is_sound(table, round) {
        return Err(Refusal::NotSound);
    }
    if !rows_pass::<COUNTED>(table, counts, round) {
        return Err(Refusal::NotSound);
    }
    if !zeros_from(table, row_at(round.used)) {
        return Err(Refusal::NotSound);
    }
    Ok(round)
}
