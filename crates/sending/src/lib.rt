// Sending a slot: refusals 2, 3 and 5.
#![tactic(auto)]

ghost use Rattle.std.specs.Prelude.{◌≤◌, replicate};
ghost use Rattle.rules.specs.Calls.{sending, acting, Says};
ghost use Rattle.round.specs.Judge.{ScanAsks};
ghost use Rattle.replies.specs.Replies.{of_sent};

use checks::may_send;
use refusals::Refusal;
use replies::Step;
use round::sound::scan;
use sender::send_sound;
use sorts::Round;

// Kept: it chooses one of two sizes by the table's length; a shared function for that would take the rest as a closure, and its clauses with it.
pub fn send_slot(table: &mut [u8]) -> Result<Step, Refusal>
    ensures { Says (acting sending) (of_sent result) table.old table.new }
{
    if table.len() <= Round::FEW_SIZE {
        return send_counted::<{ Round::FEW_PLACES }>(table);
    }
    send_counted::<{ Round::PLACES }>(table)
}

// The same with places for the scan's counts.
fn send_counted<const PLACES: usize>(table: &mut [u8]) -> Result<Step, Refusal>
    requires { ScanAsks table.old (replicate PLACES 0) × (PLACES ≤ 1026) }
    ensures { Says (acting sending) (of_sent result) table.old table.new }
{
    let mut counts = [0u32; PLACES];
    let round = scan(table, &mut counts)?;
    may_send(round)?;
    Ok(send_sound(table, &mut counts, round))
}
