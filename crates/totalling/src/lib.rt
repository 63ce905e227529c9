// The public call that reckons the plan's total: refusals 2, 3 and 5.
#![tactic(auto)]

ghost use Rattle.std.specs.Prelude.{◌≡◌, ◌≤◌, replicate};
ghost use Rattle.rules.specs.Plan.{total};
ghost use Rattle.rules.specs.Table.{round_in};
ghost use Rattle.rules.specs.Calls.{totalling, asking, Says};
ghost use Rattle.round.specs.Judge.{ScanAsks};
ghost use Rattle.round.specs.Buckets.{Counted};
ghost use Rattle.replies.specs.Replies.{of_totalled};

use buckets::reach_of;
use checks::may_send;
use marks::total::total_of;
use questions::ask_plan;
use refusals::Refusal;
use round::read::Sound;
use round::sound::scan;
use sorts::Round;

// Kept: it chooses one of two sizes by the table's length; a shared function for that would take the rest as a closure, and its clauses with it.
pub fn plan_total(table: &[u8]) -> Result<u64, Refusal>
    ensures { Says (asking totalling) (of_totalled result) table.now table.now }
{
    if table.len() <= Round::FEW_SIZE {
        return total_by::<{ Round::FEW_PLACES }>(table);
    }
    total_by::<{ Round::PLACES }>(table)
}

// The same with so many places for counts.
fn total_by<const PLACES: usize>(table: &[u8]) -> Result<u64, Refusal>
    requires { ScanAsks table.now (replicate PLACES 0) × (PLACES ≤ 1026) }
    ensures { Says (asking totalling) (of_totalled result) table.now table.now }
{
    let mut counts = [0u32; PLACES];
    let round = scan(table, &mut counts)?;
    may_send(round)?;
    let sound = Sound { table, round };
    Ok(total_ahead(&sound, &mut counts))
}

// A slot is left; all rows but those that the plan leaves out, and where it leaves none there is no plan to make.
fn total_ahead(sound: &Sound, counts: &mut [u32]) -> u64
    requires { Counted (round_in sound.now.table.now) counts.old }
    ensures { result ≡ total (round_in sound.now.table.now) }
{
    let reach = reach_of(counts, sound.round);
    if reach.over == 0 {
        return total_of(sound, 0);
    }
    let lost = ask_plan(sound, counts, reach, |_, _, lost| lost);
    total_of(sound, lost)
}
