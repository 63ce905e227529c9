// Mark and substitute where no row is left out: counts of all rows tell the segments.
#![tactic(auto)]

ghost use Rattle.std.specs.Prelude.{◌≡◌, ◌+◌, ◌≤◌, ◌<◌};
ghost use Rattle.rules.specs.Plan.{mark, least_weight};
ghost use Rattle.rules.specs.Table.{round_in};
ghost use Rattle.round.specs.Rows.{at};
ghost use Rattle.every.specs.Every.{Whole, LightestKey};
ghost use Rattle.sub.specs.Substitute.{Substitutes};

use buckets::Reach;
use buckets::stretch::stretch_of;
use keys::{key_of, row_of};
use round::read::Sound;
use sorts::{Class, Round, Slot, Weight};
use sub::Sub;

// The least weight of the rows due by a slot.
fn least_by(sound: &Sound, by: u32) -> u32
    ensures { result ≡ least_weight by (round_in sound.now.table.now).rows 16777216 }
{
    let mut low: u32 = Round::WEIGHT.0;
    for row in 0..sound.round.used {
        let weight = sound.weight_at(row);
        if sound.due_at(row) <= by {
            low = low.min(weight);
        }
    }
    low
}

// The mark of a slot before free: the least weight due by its segment's end.
pub fn mark_every(sound: &Sound, counts: &[u32], reach: Reach, slot: Slot) -> Weight
    requires { Whole sound.now.table.now counts.now sound.now.round reach × (sound.now.round.slot.0 ≤ slot.0)
        × (slot.0 < sound.now.round.slot.0 + reach.free) }
    ensures { result.0 ≡ mark (round_in sound.now.table.now) slot.0 }
{
    let current = sound.round.slot.0;
    let stretch = stretch_of(counts, reach.free, (slot.0 - current) as usize);
    Weight(least_by(sound, current + stretch.last as u32))
}

// The lightest row due by a slot; 0 for none.
// Kept: no key is 0, so the greatest of bare numbers tells none too, and the pass has no case of its own for the first row.
fn lightest_by(sound: &Sound, by: u32) -> u64
    ensures { LightestKey (round_in sound.now.table.now) by result }
{
    let mut low: u64 = 0;
    for row in 0..sound.round.used {
        let due = sound.due_at(row);
        let class = sound.class_at(row);
        let key = key_of(Weight(sound.weight_at(row)), Slot(due), Class(class), row);
        if due <= by {
            low = low.max(key);
        }
    }
    low
}

// Who stands in for a row due before free: of the first segment its lightest row, of a later one the blank where it begins.
pub fn substitute_every(sound: &Sound, counts: &[u32], reach: Reach, row: usize) -> Sub
    requires { Whole sound.now.table.now counts.now sound.now.round reach × (row < sound.now.round.used)
        × ((at (round_in sound.now.table.now) row).due < sound.now.round.slot.0 + reach.free) }
    ensures { Substitutes (round_in sound.now.table.now) row result }
{
    let current = sound.round.slot.0;
    let stretch = stretch_of(counts, reach.free, (sound.due_at(row) - current) as usize);
    if stretch.first != 0 {
        return Sub::Blank(Slot(current + stretch.first as u32));
    }
    Sub::Row(row_of(lightest_by(sound, current + stretch.last as u32)))
}
