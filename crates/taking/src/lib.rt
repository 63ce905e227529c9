// Taking a frame: refusals 2, 3, 5 to 9, 13 and 14.
#![tactic(auto)]

ghost use Rattle.rules.specs.Rows.{framed};
ghost use Rattle.rules.specs.Calls.{taking, acting, Says};
ghost use Rattle.replies.specs.Replies.{of_taken};

use checks::may_take;
use head::write_head;
use refusals::Refusal;
use round::sound::judge;
use row::row_at;
use row::write::write_row;
use sorts::{Class, Slot, Ticket, Weight};

// Kept: a due slot, a weight and a class each on their own, as document 01 and the C interface name them; their types tell them apart.
pub fn take_frame(
    due: Slot,
    weight: Weight,
    class: Class,
    table: &mut [u8],
) -> Result<Ticket, Refusal>
    ensures { Says (acting (taking (framed due.0 weight.0 class.0))) (of_taken result) table.old table.new }
{
    let round = judge(table)?;
    may_take(round, due, weight, class)?;
    write_row(table, row_at(round.used), round.next, due, weight, class);
    write_head(table, round.one_more());
    Ok(round.next)
}
