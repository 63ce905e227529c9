// Sending a slot where rows are left out of the plan: the plan, then its first or its segments, and what is written.
// Kept: table, round and expiring each on their own, as crate went says.
#![tactic(auto)]

ghost use Rattle.std.specs.Prelude.{◌≢◌, ◌+◌, ◌≤◌};
ghost use Rattle.rules.specs.Table.{round_in};
ghost use Rattle.round.specs.Rows.{Ready};
ghost use Rattle.round.specs.Buckets.{Counted};
ghost use Rattle.buckets.specs.Reach.{ReachSays, head_top};
ghost use Rattle.closing.specs.Close.{DueNow};
ghost use Rattle.went.specs.Send.{SentSays};
ghost use Rattle.crowded.specs.Crowded.{Crowded, Led};

use buckets::Reach;
use flagged::first_planned;
use plan::{Planned, plan_of};
use replies::Step;
use round::read::Sound;
use segments::segments_of;
use sorts::Round;
use step::send_planned;
use went::send_row;

// Sealed: the plan's first. Else by its segments: counts and heap have served once the plan is made, and take their ends and tops.
// Kept: the arrays each on their own: counts and heap are written for the plan, and then written again as ends and tops (decision 26).
fn send_led(
    table: &mut [u8],
    counts: &mut [u32],
    keys: &[u64],
    flags: &[u8],
    heap: &mut [u64],
    lows: &mut [u32],
    round: Round,
    reach: Reach,
    planned: Planned,
    expiring: usize,
) -> Step
    requires { Led table.old counts.old keys.now flags.now heap.old lows.old round reach planned expiring }
    ensures { SentSays table.old table.new result }
{
    if round.sealed == 1 {
        let row = first_planned(keys, flags);
        return Step::Ordinary(send_row(table, round, row, expiring));
    }
    let lead = segments_of(keys, flags, round.slot, reach.free, counts, heap, lows);
    send_planned(
        table,
        counts,
        heap,
        lows,
        round,
        planned.far,
        lead,
        expiring,
    )
}

// Some rows are left out. A far row goes in no sealed round.
fn send_crowded(
    table: &mut [u8],
    counts: &mut [u32],
    keys: &mut [u64],
    flags: &mut [u8],
    heap: &mut [u64],
    lows: &mut [u32],
    round: Round,
    reach: Reach,
    expiring: usize,
) -> Step
    requires { Crowded table.old counts.old keys.old flags.old heap.old lows.old round reach expiring }
    ensures { SentSays table.old table.new result }
{
    let asked = round.sealed != 1;
    let sound = Sound {
        table: &*table,
        round,
    };
    let planned = plan_of(&sound, counts, keys, flags, heap, reach, asked);
    send_led(
        table,
        counts,
        &keys[..planned.many],
        flags,
        heap,
        lows,
        round,
        reach,
        planned,
        expiring,
    )
}

// The same with arrays of its own.
pub fn send_in_arrays<const PLACES: usize>(
    table: &mut [u8],
    counts: &mut [u32],
    round: Round,
    reach: Reach,
    expiring: usize,
) -> Step
    requires { Ready table.old round × Counted (round_in table.old) counts.old × ReachSays counts.old (head_top round) reach
        × (reach.over ≢ 0) × DueNow table.old expiring × (round.used + 2 ≤ PLACES) × (PLACES ≤ 1026) }
    ensures { SentSays table.old table.new result }
{
    let mut keys = [0u64; PLACES];
    let mut flags = [1u8; PLACES];
    let mut heap = [0u64; PLACES];
    let mut lows = [0u32; PLACES];
    send_crowded(
        table,
        counts,
        &mut keys,
        &mut flags[..round.used],
        &mut heap,
        &mut lows,
        round,
        reach,
        expiring,
    )
}
