// Segments as a value: one backward pass over the near rows' keys in due order finds each segment and the one whose top goes first.
#![tactic(auto)]

ghost use Rattle.std.specs.Prelude.{length};
ghost use Rattle.segments.specs.Given.{Lent};
ghost use Rattle.segments.specs.Segmented.{SegmentsSay};

use keys::{BLANK, due_of, row_of};
use lead::{Lead, close_segment, ends_here};
use sorts::Slot;

// From the last key back: a segment opens at its end and closes where an earlier one ends.
// Kept: three arrays, as crate lead says; keys and flags, as marks does.
pub fn segments_of(
    keys: &[u64],
    flags: &[u8],
    slot: Slot,
    free: usize,
    ends: &mut [u32],
    tops: &mut [u64],
    lows: &mut [u32],
) -> Lead
    requires { Lent keys.now flags.now (length keys.now) slot.0 free ends.old tops.old lows.old }
    ensures { SegmentsSay keys.now flags.now (length keys.now) slot.0 free ends.new tops.new lows.new result }
{
    let mut lead = Lead {
        count: 0,
        score: 0,
        key: BLANK,
        segment: 0,
        other: BLANK,
    };
    let current = slot.0;
    let mut end = current + free as u32 - 1;
    let mut heavy = BLANK;
    let mut light: u64 = 0;
    let mut out = BLANK;
    // the plan's rows still to come would fill each slot before it
    let mut edge = current as usize + free;
    // Kept: by places, since what the loop keeps speaks of the keys from a place on; so would an iterator's, of a list yielded backwards.
    for i in (0..keys.len()).rev() {
        let key = keys[i];
        let due = due_of(key);
        if ends_here(Slot(due), edge, Slot(end)) {
            lead = close_segment(ends, tops, lows, lead, Slot(end), heavy, light, out);
            end = due;
            heavy = BLANK;
            light = 0;
        }
        if flags[row_of(key)] == 1 {
            heavy = heavy.min(key);
            light = light.max(key);
            edge -= 1;
        } else {
            out = out.min(key);
        }
    }
    close_segment(ends, tops, lows, lead, Slot(end), heavy, light, light)
}
