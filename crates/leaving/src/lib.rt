// Who is left out: rows by rising due slot are kept while there is a slot for each, then the lightest of all leaves. Its flag goes.
#![tactic(auto)]

ghost use Rattle.std.specs.Prelude.{◌≡◌, ◌+◌, ◌-◌, ◌/◌, ◌%◌, ◌≤◌, ◌<◌, length};
ghost use Rattle.keys.specs.Key.{due_of};
ghost use Rattle.heap.specs.Heap.{Heap};
ghost use Rattle.leaving.specs.Sweep.{Leaves, Crowds, FirstCrowded, Lightest, EmptyHeap, Fills, Filled, Crowd, Parted};

use buckets::Reach;
use heap::{rise, sink};
use keys::{due_of, lack_of, row_of, weight_of, weight_of_all};
use sorts::Slot;

// Slots from the current one to the due slot of a key's row.
fn ahead_of(key: u64, slot: u32) -> usize
    requires { slot ≤ due_of key }
    ensures { result ≡ due_of key - slot }
{
    (due_of(key) - slot) as usize
}

// The first place that has fewer slots than places before it. There is one, so the end needs no test.
fn first_crowded(keys: &[u64], slot: u32) -> usize
    requires { Crowds keys.now slot }
    ensures { FirstCrowded keys.now slot result }
{
    let mut place: usize = 0;
    // Kept: a `for` would only add the test of an end and an answer for none.
    while place <= ahead_of(keys[place], slot) {
        place += 1;
    }
    place
}

// The greatest key up to that place.
fn lightest(keys: &[u64], slot: u32) -> u64
    requires { Crowds keys.now slot }
    ensures { Lightest keys.now slot result }
{
    let mut top = keys[0];
    let mut at: usize = 0;
    // Kept: a `for` would only add the test of an end.
    while at <= ahead_of(keys[at], slot) {
        at += 1;
        top = top.max(keys[at]);
    }
    top
}

// One too many: the lightest of those that crowd first.
fn leave_one(keys: &[u64], flags: &mut [u8], slot: u32, reach: Reach) -> u64
    requires { Crowd keys.now flags.old slot reach.free reach.over × (reach.over ≡ 1) }
    ensures { Parted keys.now flags.new slot reach.free reach.over result }
{
    let top = lightest(keys, slot);
    flags[row_of(top)] = 0;
    weight_of(top) as u64
}

// The keys before the first crowded place.
fn fill(heap: &mut [u64], keys: &[u64], first: usize)
    requires { Fills keys.now heap.old first }
    ensures { Filled keys.now heap.new first }
{
    for (place, &key) in keys[..first].iter().enumerate() {
        rise(heap, place, key);
    }
}

// The lightest of the heap's rows and one more, which takes its place.
fn leaver(heap: &mut [u64], size: usize, key: u64) -> u64
    requires { (1 ≤ size) × (size + 2 ≤ length heap.old) × (size ≤ 1024) × (1 ≤ key) × Heap size heap.old }
    ensures { Leaves size key heap.old heap.new result }
{
    let top = heap[1];
    if key < top {
        sink(heap, size, key);
        return top;
    }
    key
}

// Over rows leave. What their weights lack is summed up: one step less for each than to sum up the weights.
fn leave_some(
    keys: &[u64],
    flags: &mut [u8],
    heap: &mut [u64],
    slot: u32,
    reach: Reach,
    first: usize,
) -> u64
    requires { Crowd keys.now flags.old slot reach.free reach.over × EmptyHeap heap.old (reach.free + reach.over)
        × FirstCrowded keys.now slot first }
    ensures { Parted keys.now flags.new slot reach.free reach.over result }
{
    fill(heap, keys, first);
    let mut light: u64 = 0;
    let mut size = first;
    let mut place = first;
    for _ in 0..reach.over {
        // A row finds no slot while one has to leave, so the end needs no test.
        // Kept: size, slots and place move at their own pace, so no range counts them.
        while size <= ahead_of(keys[place], slot) {
            rise(heap, size, keys[place]);
            size += 1;
            place += 1;
        }
        let out = leaver(heap, size, keys[place]);
        place += 1;
        flags[row_of(out)] = 0;
        light += lack_of(out);
    }
    weight_of_all(reach.over, light)
}

// Answers the weight of all rows left out.
pub fn leave_out(keys: &[u64], flags: &mut [u8], heap: &mut [u64], slot: Slot, reach: Reach) -> u64
    requires { Crowd keys.now flags.old slot.0 reach.free reach.over × EmptyHeap heap.old (reach.free + reach.over) }
    ensures { Parted keys.now flags.new slot.0 reach.free reach.over result }
{
    if reach.over == 1 {
        return leave_one(keys, flags, slot.0, reach);
    }
    let first = first_crowded(keys, slot.0);
    leave_some(keys, flags, heap, slot.0, reach, first)
}
