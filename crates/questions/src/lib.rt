// What the calls that write nothing begin with: what is known of a table, and what the plan gives those who ask.
#![tactic(auto)]

ghost use Rattle.std.specs.Prelude.{◌+◌, ◌≤◌};
ghost use Rattle.rules.specs.Table.{round_in};
ghost use Rattle.marks.specs.Total.{Lost};
ghost use Rattle.questions.specs.Seen.{Seen, Gives};

use buckets::Reach;
use plan::plan_of;
use round::read::Sound;
use sorts::Round;

// Some rows are left out: asks their plan, by the near rows' keys, its flags and what it lost, in small arrays or in large ones.
// Kept: sound, counts and reach each on their own, since counts are written for the plan while the others are read.
pub fn ask_plan<R, F: FnOnce(&[u64], &[u8], u64) -> R>(
    sound: &Sound,
    counts: &mut [u32],
    reach: Reach,
    ask: F,
) -> R
    requires seen { Seen sound.now.table.now counts.old sound.now.round reach × (1 ≤ reach.over) }
    requires can { (ks : _) (fs : _) (n : _) → Gives (round_in sound.now.table.now) reach ks.now fs.now
        → Lost (round_in sound.now.table.now) n → F.pre ask ks fs n }
    ensures { (ks : _) × ((fs : _) × ((n : _) × (Gives (round_in sound.now.table.now) reach ks.now fs.now
        × (Lost (round_in sound.now.table.now) n × F.post ask ks fs n result)))) }
{
    if sound.round.used <= Round::FEW {
        return ask_in_arrays::<{ Round::FEW_PLACES }, { Round::FEW }, R, F>(
            sound, counts, reach, ask,
        );
    }
    ask_in_arrays::<{ Round::PLACES }, { Round::ROWS }, R, F>(sound, counts, reach, ask)
}

fn ask_in_arrays<const PLACES: usize, const ROWS: usize, R, F: FnOnce(&[u64], &[u8], u64) -> R>(
    sound: &Sound,
    counts: &mut [u32],
    reach: Reach,
    ask: F,
) -> R
    requires fits { (sound.now.round.used ≤ ROWS) × (ROWS + 2 ≤ PLACES) × (PLACES ≤ 1026) }
    requires seen { Seen sound.now.table.now counts.old sound.now.round reach × (1 ≤ reach.over) }
    requires can { (ks : _) (fs : _) (n : _) → Gives (round_in sound.now.table.now) reach ks.now fs.now
        → Lost (round_in sound.now.table.now) n → F.pre ask ks fs n }
    ensures { (ks : _) × ((fs : _) × ((n : _) × (Gives (round_in sound.now.table.now) reach ks.now fs.now
        × (Lost (round_in sound.now.table.now) n × F.post ask ks fs n result)))) }
{
    let mut keys = [0u64; PLACES];
    let mut ones = [1u8; ROWS];
    let mut heap = [0u64; PLACES];
    let flags = &mut ones[..sound.round.used];
    let planned = plan_of(sound, counts, &mut keys, flags, &mut heap, reach, false);
    ask(&keys[..planned.many], flags, planned.lost)
}
