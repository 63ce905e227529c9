// A leap's marks and shifts, by segments numbered from the back: 0 is the last, and a larger number is an earlier one.
#![tactic(auto)]

ghost use Rattle.std.specs.Prelude.{◌≡◌, ◌≤◌, ◌<◌, min, length, get_or};
ghost use Rattle.rules.specs.Table.{round_in};
ghost use Rattle.chain.specs.Chain.{LiesIn, Lowered, Named, linked, passed, Chained, Shifts};

use keys::{row_of, weight_of};
use row::write::write_shift;
use sorts::{Slot, Weight};

// Segments by their numbers: each one's end, the key of its heaviest row, and its lightest weight or its mark.
// Kept: three slices side by side, since a sending's counts and heap serve again as ends and tops; one of whole segments would need 12 KB of stack more.
#[derive(Drop)]
pub struct Segments<'a> {
    pub ends: &'a [u32],
    pub tops: &'a [u64],
    pub lows: &'a mut [u32],
}

// The same once the lows are marks, which are only read: each segment's end, the key of its heaviest row, and its mark.
// Kept: three slices side by side, as those of Segments.
#[derive(Clone, Copy)]
pub struct MarkedSegments<'a> {
    pub ends: &'a [u32],
    pub tops: &'a [u64],
    pub marks: &'a [u32],
}

// The segment in which a slot lies, own or a later one.
pub fn segment_by(ends: &[u32], own: usize, slot: Slot) -> usize
    requires { (own < length ends.now) × (slot.0 ≤ get_or ends.now 0 0) }
    ensures { LiesIn ends.now own slot.0 result }
{
    let mut k = own;
    // Kept: the last segment's end stops the search, so it tests no bound of a range.
    while ends[k] < slot.0 {
        k -= 1;
    }
    k
}

// Each segment's lightest weight becomes its mark, the least from the first segment on, up to segment to.
// Kept: count beside lows, since the places past it are a segment's no more and lows is written in place.
pub fn lower_marks(lows: &mut [u32], count: usize, to: usize)
    requires { (to < count) × (count ≤ length lows.old) }
    ensures { Lowered count to lows.old lows.new }
{
    for k in (to..count - 1).rev() {
        let mark = lows[k + 1];
        lows[k] = mark.min(lows[k]);
    }
}

// A link moves to an end, its weight raised to that end's mark.
fn shift_link(table: &mut [u8], key: u64, end: u32, mark: u32)
    requires { Named key table.old }
    ensures { table.new ≡ linked key end mark table.old }
{
    let row = row_of(key);
    write_shift(table, row, Slot(end), Weight(weight_of(key).max(mark)));
}

// From a segment to the one before it: if its heaviest row is heavier than the link that waits, it is the next link, and the other moves to its end.
fn pass_segment(table: &mut [u8], segments: &MarkedSegments, waiting: u64, k: usize) -> u64
    requires { Named waiting table.old × (k < length segments.now.ends.now) × (k < length segments.now.tops.now)
        × (k < length segments.now.marks.now) }
    ensures { (result ≡ min waiting (get_or segments.now.tops.now k 0))
        × (table.new ≡ passed segments.now.ends.now segments.now.tops.now segments.now.marks.now waiting k table.old) }
{
    let top = segments.tops[k];
    if waiting <= top {
        return waiting;
    }
    shift_link(table, waiting, segments.ends[k], segments.marks[k]);
    top
}

// Every link between the ends of two segments moves to the end before it.
pub fn shift_chain(table: &mut [u8], segments: &MarkedSegments, to: usize, own: usize)
    requires { Chained table.old segments.now.ends.now segments.now.tops.now segments.now.marks.now to own }
    ensures { Shifts (round_in table.old) (get_or segments.now.ends.now own 0) (get_or segments.now.ends.now to 0) table.new }
{
    if to == own {
        return;
    }
    let mut waiting = segments.tops[to];
    for k in to + 1..own {
        waiting = pass_segment(table, segments, waiting, k);
    }
    shift_link(table, waiting, segments.ends[own], segments.marks[own]);
}
