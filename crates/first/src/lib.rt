// The plan's canonical first, which a sealed round sends, where no row is left out: of the rows due earliest the one of the least key.
#![tactic(auto)]

ghost use Rattle.std.specs.Prelude.{◌≡◌, ◌≤◌, ◌<◌};
ghost use Rattle.rules.specs.Table.{round_in};
ghost use Rattle.round.specs.Rows.{DueAt};
ghost use Rattle.keys.specs.Key.{key_at};
ghost use Rattle.first.specs.First.{Sees, IsFirst};

use keys::{key_of, row_of};
use round::read::Sound;
use sorts::{Class, Slot, Weight};

// The first of the rows so far, by its due slot and its key.
#[derive(Clone, Copy)]
struct First {
    due: u32,
    key: u64,
}

// A row due no later is compared: of one due slot the lesser key is the heavier row's.
fn see(first: First, next: First) -> First
    ensures { Sees first next.due next.key result }
{
    // Kept: due slots are compared before a key is made, so a derived order of both would compare them twice.
    if next.due == first.due {
        if first.key <= next.key {
            return first;
        }
    }
    next
}

// The key of a row due then.
fn key_at(sound: &Sound, due: u32, row: usize) -> u64
    requires { (row < sound.now.round.used) × DueAt (round_in sound.now.table.now) row due }
    ensures { result ≡ key_at (round_in sound.now.table.now) row }
{
    let weight = sound.weight_at(row);
    let class = sound.class_at(row);
    key_of(Weight(weight), Slot(due), Class(class), row)
}

// A key is made only where the due slot can win, and of a single row none.
pub fn first_of_all(sound: &Sound) -> usize
    requires { 1 ≤ sound.now.round.used }
    ensures { IsFirst (round_in sound.now.table.now) (round_in sound.now.table.now).rows result }
{
    let used = sound.round.used;
    if used == 1 {
        return 0;
    }
    let start = sound.due_at(0);
    let mut first = First {
        due: start,
        key: key_at(sound, start, 0),
    };
    for row in 1..used {
        let due = sound.due_at(row);
        if due <= first.due {
            let key = key_at(sound, due, row);
            first = see(first, First { due, key });
        }
    }
    row_of(first.key)
}
