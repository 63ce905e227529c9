// The public call that looks for the mark of a slot: refusals 2, 3, 5 and 7.
#![tactic(auto)]

ghost use Rattle.std.specs.Prelude.{◌≡◌, ◌+◌, ◌≤◌, ◌<◌, replicate};
ghost use Rattle.rules.specs.Plan.{mark};
ghost use Rattle.rules.specs.Table.{round_in};
ghost use Rattle.rules.specs.Calls.{marking, asking, Says};
ghost use Rattle.round.specs.Judge.{ScanAsks};
ghost use Rattle.round.specs.Buckets.{Counted};
ghost use Rattle.replies.specs.Replies.{of_marked};
ghost use Rattle.questions.specs.Seen.{Seen};

use buckets::{Reach, reach_of};
use checks::may_mark;
use every::mark_every;
use far::is_far;
use marks::mark::mark_near;
use questions::ask_plan;
use refusals::Refusal;
use round::read::Sound;
use round::sound::scan;
use sorts::{Round, Slot, Weight};

// Kept: it chooses one of two sizes by the table's length; a shared function for that would take the rest as a closure, and its clauses with it.
pub fn mark_of(slot: Slot, table: &[u8]) -> Result<Weight, Refusal>
    ensures { Says (asking (marking slot.0)) (of_marked result) table.now table.now }
{
    if table.len() <= Round::FEW_SIZE {
        return mark_by::<{ Round::FEW_PLACES }>(slot, table);
    }
    mark_by::<{ Round::PLACES }>(slot, table)
}

// The same with so many places for counts.
// Kept: it begins as totalling's does; what each asks of its counts is its own.
fn mark_by<const PLACES: usize>(slot: Slot, table: &[u8]) -> Result<Weight, Refusal>
    requires { ScanAsks table.now (replicate PLACES 0) × (PLACES ≤ 1026) }
    ensures { Says (asking (marking slot.0)) (of_marked result) table.now table.now }
{
    let mut counts = [0u32; PLACES];
    let round = scan(table, &mut counts)?;
    may_mark(round, slot)?;
    let sound = Sound { table, round };
    Ok(mark_ahead(slot, &sound, &mut counts))
}

// A slot still ahead; a far one needs no plan.
fn mark_ahead(slot: Slot, sound: &Sound, counts: &mut [u32]) -> Weight
    requires { Counted (round_in sound.now.table.now) counts.old × (sound.now.round.slot.0 ≤ slot.0) × (slot.0 ≤ sound.now.round.last.0) }
    ensures { result.0 ≡ mark (round_in sound.now.table.now) slot.0 }
{
    let reach = reach_of(counts, sound.round);
    if is_far(sound.round, reach, slot) {
        return Weight(0);
    }
    mark_before_free(slot, sound, counts, reach)
}

// A slot before free; where no row is left out the counts tell its segment, else the plan does.
fn mark_before_free(slot: Slot, sound: &Sound, counts: &mut [u32], reach: Reach) -> Weight
    requires { Seen sound.now.table.now counts.old sound.now.round reach
        × (sound.now.round.slot.0 ≤ slot.0) × (slot.0 < sound.now.round.slot.0 + reach.free) }
    ensures { result.0 ≡ mark (round_in sound.now.table.now) slot.0 }
{
    if reach.over == 0 {
        return mark_every(sound, counts, reach, slot);
    }
    let current = sound.round.slot;
    ask_plan(sound, counts, reach, |keys, flags, _| {
        mark_near(keys, flags, current, slot)
    })
}
