// The public call that looks for the substitute of a ticket: refusals 2, 3, 5, 10 and 11.
#![tactic(auto)]

ghost use Rattle.std.specs.Prelude.{◌≤◌, replicate};
ghost use Rattle.rules.specs.Looking.{substitute_answer, Looks};
ghost use Rattle.round.specs.Judge.{ScanAsks};
ghost use Rattle.replies.specs.Replies.{of_substituted};

mod finding; // finding.rt: the row of a ticket
mod standing; // standing.rt: who stands in for a row

use crate::finding::find_row;
use crate::standing::substitute_row;
use checks::may_send;
use refusals::Refusal;
use replies::Substitute;
use round::read::Sound;
use round::sound::scan;
use sorts::{Round, Ticket};

// Kept: it chooses one of two sizes by the table's length; a shared function for that would take the rest as a closure, and its clauses with it.
pub fn substitute_of(ticket: Ticket, table: &[u8]) -> Result<Substitute, Refusal>
    ensures { Looks (substitute_answer ticket.0 table.now) (of_substituted result) table.now table.now }
{
    if table.len() <= Round::FEW_SIZE {
        return substitute_by::<{ Round::FEW_PLACES }>(ticket, table);
    }
    substitute_by::<{ Round::PLACES }>(ticket, table)
}

// The same with so many places for counts.
fn substitute_by<const PLACES: usize>(ticket: Ticket, table: &[u8]) -> Result<Substitute, Refusal>
    requires { ScanAsks table.now (replicate PLACES 0) × (PLACES ≤ 1026) }
    ensures { Looks (substitute_answer ticket.0 table.now) (of_substituted result) table.now table.now }
{
    let mut counts = [0u32; PLACES];
    let round = scan(table, &mut counts)?;
    may_send(round)?;
    let sound = Sound { table, round };
    let Some(row) = find_row(&sound, ticket) else {
        return Err(Refusal::NoSuchTicket);
    };
    substitute_row(&sound, &mut counts, row)
}
