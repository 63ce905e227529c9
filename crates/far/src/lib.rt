// Far slots, from free on, and the substitute of a row due in one: the blank where its segment begins, since the plan has every such row.
#![tactic(auto)]

ghost use Rattle.std.specs.Prelude.{◌≡◌, suc, ◌+◌, ◌-◌, ◌≤◌, ◌<◌, leb, length, replicate};
ghost use Rattle.rules.specs.Table.{round_in};
ghost use Rattle.far.specs.Far.{window_at, bucket_in, CountedIn, Roomy, Begins, FarRow};
ghost use Rattle.sub.specs.Substitute.{Substitutes};

use buckets::Reach;
use round::read::Sound;
use sorts::{Round, Slot};
use sub::Sub;

// Whether a slot is so far that the plan has free ones up to it: its mark is 0.
pub fn is_far(round: Round, reach: Reach, slot: Slot) -> bool
    requires { round.slot.0 ≤ slot.0 }
    ensures { result ≡ leb reach.free (slot.0 - round.slot.0) }
{
    reach.free <= (slot.0 - round.slot.0) as usize
}

// Buckets 0 to top: slots from low on; bucket mid is the slot where the row is due.
#[derive(Clone, Copy)]
pub struct Window {
    pub low: u32,
    pub mid: usize,
    pub top: usize,
}

// As many slots on each side as there are far rows, but none before free: rows due further away move no beginning.
fn window_of(round: Round, reach: Reach, due: u32) -> Window
    requires { (reach.free + reach.over ≤ round.used) × (round.used ≤ 1024) × (round.slot.0 + reach.free ≤ due) }
    ensures { result ≡ window_at (round.slot.0 + reach.free) (round.used - reach.free - reach.over) due }
{
    let far = round.used - reach.free - reach.over;
    let mid = ((due - (round.slot.0 + reach.free as u32)) as usize).min(far);
    Window {
        low: due - mid as u32,
        mid,
        top: mid + far,
    }
}

// The bucket of a row; one past top for a row due further away.
fn bucket_in(window: Window, due: u32) -> usize
    requires { window.top ≤ 2048 }
    ensures { (result ≡ bucket_in window due) × (result ≤ window.top + 1) }
{
    let out = window.top + 1;
    if due < window.low {
        return out;
    }
    ((due - window.low) as usize).min(out)
}

fn count_in(sound: &Sound, counts: &mut [u16], window: Window)
    requires { (window.top ≤ 2048) × (suc window.top < length counts.old) × (counts.old ≡ replicate (length counts.old) 0) }
    ensures { CountedIn (round_in sound.now.table.now).rows window counts.new }
{
    for row in 0..sound.round.used {
        let b = bucket_in(window, sound.due_at(row));
        counts[b] = counts[b] + 1;
    }
}

// From the last bucket back each takes one of the rows that wait for it; a segment begins where no other waits.
fn begin_of(counts: &[u16], mid: usize, top: usize) -> usize
    requires { Roomy counts.now mid top }
    ensures { Begins counts.now mid top result }
{
    let mut waiting = usize::from(counts[top]);
    for s in (mid..top).rev() {
        waiting = waiting.saturating_sub(1) + usize::from(counts[s]);
    }
    let mut begin = mid;
    // Kept: the rows that wait end the search, not the first bucket.
    while 1 < waiting {
        begin -= 1;
        waiting = waiting - 1 + usize::from(counts[begin]);
    }
    begin
}

// Counts are lent, all 0: two for each row, and two more.
pub fn substitute_far(sound: &Sound, counts: &mut [u16], reach: Reach, row: usize) -> Sub
    requires { FarRow sound.now.table.now counts.old sound.now.round reach row }
    ensures { Substitutes (round_in sound.now.table.now) row result }
{
    let window = window_of(sound.round, reach, sound.due_at(row));
    count_in(sound, counts, window);
    let begin = begin_of(counts, window.mid, window.top);
    Sub::Blank(Slot(window.low + begin as u32))
}
