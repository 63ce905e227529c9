// Which row goes where no row is left out: a blank stands in for every row past the first segment, so passes over the table tell it.
#![tactic(auto)]

ghost use Rattle.rules.specs.Table.{round_in};
ghost use Rattle.whole.specs.Whole.{Given, Past, FirstGoes, Picked};

use buckets::Reach;
use buckets::stretch::stretch_of;
use keys::rank_due;
use lead::score_of;
use passes::best::Best;
use passes::look::{Found, heaviest, look};
use round::read::Sound;
use sorts::{Slot, Weight};

// The row that goes, and how.
#[derive(Clone, Copy)]
pub enum Whole {
    // Ordinary: it is in the first segment.
    First {
        row: usize,
    },
    // A leap from where the plan isn't full: nothing stays behind.
    Far {
        row: usize,
    },
    // A leap onto its segment's blank, which is kept: the slot where the segment begins, and its mark.
    Kept {
        row: usize,
        first: Slot,
        mark: Weight,
    },
}

// The first segment's heaviest row goes unless the heaviest of all, past it, has the greater score: its substitute weighs nothing.
fn first_goes(best: Best, found: Found) -> bool
    ensures { FirstGoes best found result }
{
    let past = score_of(Weight(best.weight), Weight(0));
    past <= score_of(Weight(found.first.weight), Weight(found.lightest))
}

// The heaviest row is due past the first segment, which ends at slot end.
fn choose_past(sound: &Sound, counts: &[u32], reach: Reach, best: Best, end: u32) -> Whole
    requires { Past sound.now.table.now counts.now sound.now.round reach best end }
    ensures { Picked (round_in sound.now.table.now) reach.free result }
{
    let slot = sound.round.slot.0;
    let ahead = (rank_due(best.rank) - slot) as usize;
    if reach.free <= ahead {
        let found = look(sound, end, end);
        if first_goes(best, found) {
            return Whole::First {
                row: found.first.row,
            };
        }
        return Whole::Far { row: best.row };
    }
    let own = stretch_of(counts, reach.free, ahead);
    let found = look(sound, end, slot + own.last as u32);
    if first_goes(best, found) {
        return Whole::First {
            row: found.first.row,
        };
    }
    Whole::Kept {
        row: best.row,
        first: Slot(slot + own.first as u32),
        mark: Weight(found.mark),
    }
}

// Counts are the scan's, reach what they say.
pub fn choose_whole(sound: &Sound, counts: &[u32], reach: Reach) -> Whole
    requires { Given sound.now.table.now counts.now sound.now.round reach }
    ensures { Picked (round_in sound.now.table.now) reach.free result }
{
    let best = heaviest(sound);
    if reach.free == 0 {
        return Whole::Far { row: best.row };
    }
    let end = sound.round.slot.0 + stretch_of(counts, reach.free, 0).last as u32;
    if rank_due(best.rank) <= end {
        return Whole::First { row: best.row };
    }
    choose_past(sound, counts, reach, best, end)
}
