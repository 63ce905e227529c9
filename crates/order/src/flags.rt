// Which rows are the plan's: a flag for each row, 1 before, becomes 0 where it is left out.
ghost use Rattle.std.specs.Prelude.{◌≡◌, ◌≤◌, replicate};
ghost use Rattle.rules.specs.Table.{round_in};
ghost use Rattle.theory.specs.Flags.{Chosen};
ghost use Rattle.round.specs.Buckets.{Counted};
ghost use Rattle.buckets.specs.Reach.{Reaches};

use buckets::{Reach, reach_of};
use heap::EMPTY;
use plan::plan_of;
use round::read::Sound;
use sorts::Round;

// Some rows are left out.
fn flag_some(sound: &Sound, flags: &mut [u8], counts: &mut [u32], reach: Reach)
    requires { Counted (round_in sound.now.table.now) counts.old × Reaches (round_in sound.now.table.now) reach × (1 ≤ reach.over)
        × (flags.old ≡ replicate sound.now.round.used 1) }
    ensures { Chosen (round_in sound.now.table.now) flags.new }
{
    let mut keys = [0u64; Round::PLACES];
    let mut heap = [EMPTY; Round::PLACES];
    plan_of(sound, counts, &mut keys, flags, &mut heap, reach, false);
}

pub fn flag_plan(sound: &Sound, flags: &mut [u8], counts: &mut [u32])
    requires { Counted (round_in sound.now.table.now) counts.old × (flags.old ≡ replicate sound.now.round.used 1) }
    ensures { Chosen (round_in sound.now.table.now) flags.new }
{
    let reach = reach_of(counts, sound.round);
    if reach.over == 0 {
        return;
    }
    flag_some(sound, flags, counts, reach);
}
