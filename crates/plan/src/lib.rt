// The plan of a sound table that leaves rows out: the near rows in due order, and a flag for each row of the plan.
#![tactic(auto)]

ghost use Rattle.rules.specs.Table.{round_in};
ghost use Rattle.plan.specs.Plans.{Lent, Plans};

use buckets::Reach;
use leaving::leave_out;
use queue::{sort, starts};
use round::read::Sound;

// How many near rows there are, the key of the heaviest other one where it is asked for, and the weight of all rows left out.
// Kept: many is no slice's length here, since the keys are lent to be written; far is BLANK where none is, as keys are everywhere.
#[derive(Clone, Copy)]
pub struct Planned {
    pub many: usize,
    pub far: u64,
    pub lost: u64,
}

// Counts are the scan's and are used up; keys get the near rows' in due order; flags, 1 before, become 0 for rows left out.
// Kept: asked as in crate queue.
pub fn plan_of(
    sound: &Sound,
    counts: &mut [u32],
    keys: &mut [u64],
    flags: &mut [u8],
    heap: &mut [u64],
    reach: Reach,
    asked: bool,
) -> Planned
    requires { Lent sound.now.table.now counts.old keys.old flags.old heap.old sound.now.round reach }
    ensures { Plans (round_in sound.now.table.now) reach asked keys.new flags.new result }
{
    let many = starts(counts, reach.free);
    let far = sort(sound, counts, keys, reach.free, asked);
    let lost = leave_out(keys, flags, heap, sound.round.slot, reach);
    Planned { many, far, lost }
}
