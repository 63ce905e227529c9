// One number for a row, by which rows are compared, and the laws of that number: the only place that knows how a key is made.
#![tactic(auto)]

ghost use Rattle.std.specs.Prelude.{◌≡◌, ◌*◌, ◌≤◌, ◌<◌};
ghost use Rattle.keys.specs.Key.{key, rank, slot_of, ranked, weight_of, lack_of, due_of, row_of, blank_key, MayLack, Lacks};

use sorts::{Class, Slot, Weight};

pub mod canonical; // canonical.rt: one number for a row's place in canonical order

// No row: what a blank would have, which weighs nothing.
// Kept: a key among keys, since passes take the least and the greatest of them without a branch, where an Option would ask at each; blank_key names it.
pub const BLANK: u64 = 281474993487872;

// Due slot and class as one number: rows of one weight go by it. The due slot that it tells.
// Kept: bounds stand in the clauses from here on, since a Slot, a Weight and a Class hold whatever number a caller gives.
pub fn rank_of(due: Slot, class: Class) -> u32
    requires { (due.0 ≤ 65535) × (class.0 ≤ 3) }
    ensures { result ≡ rank due.0 class.0 }
{
    due.0 * 4 + class.0
}

pub fn rank_due(rank: u32) -> u32
    ensures { result ≡ slot_of rank }
{
    rank / 4
}

#[tactic(auto, unfolding(crate::specs::Key::ranked))]
pub fn key_by(weight: Weight, rank: u32, row: usize) -> u64
    requires { (weight.0 ≤ 16777216) × (rank ≤ 16383) × (row < 1024) }
    ensures { result ≡ ranked weight.0 rank row }
{
    BLANK - u64::from(weight.0) * 16777216 + (u64::from(rank) * 1024 + row as u64)
}

#[tactic(auto, unfolding(crate::specs::Key::key, crate::specs::Key::ranked))]
pub fn key_of(weight: Weight, due: Slot, class: Class, row: usize) -> u64
    requires { (weight.0 ≤ 16777216) × (due.0 ≤ 4095) × (class.0 ≤ 3) × (row < 1024) }
    ensures { result ≡ key weight.0 due.0 class.0 row }
{
    key_by(weight, rank_of(due, class), row)
}

// What a key tells: the weight (0 of BLANK), the due slot, the row.
pub fn weight_of(key: u64) -> u32
    requires { key ≤ blank_key }
    ensures { result ≡ weight_of key }
{
    (16777217 - key / 16777216) as u32
}

pub fn due_of(key: u64) -> u32
    ensures { result ≡ due_of key }
{
    (key / 4096 % 4096) as u32
}

pub fn row_of(key: u64) -> usize
    ensures { result ≡ row_of key }
{
    (key % 1024) as usize
}

// What the weight that a key tells lacks to a number one above the heaviest.
pub fn lack_of(key: u64) -> u64
    ensures { result ≡ lack_of key }
{
    key / 16777216
}

// The weight of so many rows, by what they lack together: one subtraction for all of them.
pub fn weight_of_all(many: usize, lacks: u64) -> u64
    requires { MayLack many lacks }
    ensures { Lacks many lacks result }
{
    many as u64 * 16777217 - lacks
}

// The key of a row with a flag, else 0: without a branch, since flags cannot be foreseen.
// Kept: flags are numbers, 1 or 0, since they are multiplied by, added up, and stand as such in what says the plan.
pub fn flagged(key: u64, flag: u8) -> u64
    requires { (key ≤ blank_key) × (flag ≤ 1) }
    ensures { result ≡ key * flag }
{
    key * u64::from(flag)
}
