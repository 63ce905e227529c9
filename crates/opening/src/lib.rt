// Opening a round: refusals 2 and 4.
#![tactic(auto)]

ghost use Rattle.rules.specs.Rows.{until};
ghost use Rattle.rules.specs.Calls.{opening, Says};
ghost use Rattle.replies.specs.Replies.{of_opened};

use checks::may_open;
use head::{rows_of, write_head};
use limits::length_is_good;
use refusals::Refusal;
use sorts::{Round, Slot};
use zeros::clear;

// Nothing that the table held is read.
pub fn open_round(last: Slot, table: &mut [u8]) -> Result<(), Refusal>
    ensures { Says (opening (until last.0)) (of_opened result) table.old table.new }
{
    if !length_is_good(table.len()) {
        return Err(Refusal::BadLength);
    }
    may_open(last)?;
    let round = Round::new(last, rows_of(table));
    clear(table, Round::HEAD_ZEROS_AT);
    write_head(table, round);
    Ok(())
}
