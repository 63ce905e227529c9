// The passes over the table, from its last row to its first: an instruction a row less than the other way.
ghost use Rattle.std.specs.Prelude.{◌≤◌, ◌<◌};
ghost use Rattle.rules.specs.Table.{round_in};
ghost use Rattle.passes.specs.Best.{RankAt, Heaviest};
ghost use Rattle.passes.specs.Look.{Notes, Looks};

use crate::best::{Best, see};
use keys::rank_of;
use round::read::Sound;
use sorts::{Class, Round, Slot};

// A row's due slot and class as one number.
fn rank_at(sound: &Sound, row: usize) -> u32
    requires { row < sound.now.round.used }
    ensures { RankAt (round_in sound.now.table.now) row result }
{
    rank_of(Slot(sound.due_at(row)), Class(sound.class_at(row)))
}

// The heaviest of all rows. A rank is read only where it can count.
pub fn heaviest(sound: &Sound) -> Best
    ensures { Heaviest (round_in sound.now.table.now) 0 sound.now.round.last.0 result }
{
    let mut best = Best::NONE;
    for row in (0..sound.round.used).rev() {
        let weight = sound.weight_at(row);
        if best.weight <= weight {
            let rank = rank_at(sound, row);
            best = see(best, Best { weight, rank, row });
        }
    }
    best
}

// The heaviest row and the least weight due by the first segment's end, and the least weight due by another's.
#[derive(Clone, Copy)]
pub struct Found {
    pub first: Best,
    pub lightest: u32,
    pub mark: u32,
}

// A row due by the other segment's end.
fn note(found: Found, next: Best, due: u32, end: u32) -> Found
    ensures { Notes found next.weight due next.rank next.row end result }
{
    let mark = found.mark.min(next.weight);
    if end < due {
        return Found { mark, ..found };
    }
    Found {
        first: see(found.first, next),
        lightest: found.lightest.min(next.weight),
        mark,
    }
}

pub fn look(sound: &Sound, end: u32, own: u32) -> Found
    requires { end ≤ own }
    ensures { Looks (round_in sound.now.table.now) 0 end own result }
{
    let mut found = Found {
        first: Best::NONE,
        lightest: Round::WEIGHT.0,
        mark: Round::WEIGHT.0,
    };
    for row in (0..sound.round.used).rev() {
        let due = sound.due_at(row);
        if due <= own {
            let rank = rank_at(sound, row);
            let weight = sound.weight_at(row);
            found = note(found, Best { weight, rank, row }, due, end);
        }
    }
    found
}
