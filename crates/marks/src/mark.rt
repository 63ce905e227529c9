// The mark of a slot before free, where some rows are left out: by the near rows' keys in due order.
ghost use Rattle.std.specs.Prelude.{length};
ghost use Rattle.marks.specs.Given.{LentAsked};
ghost use Rattle.marks.specs.Near.{LightestSay, MarksSay};

use keys::{due_of, flagged, row_of, weight_of};
use sorts::{Slot, Weight};

// The key of the lightest of the plan's rows due by the end of the slot's segment.
// The plan's rows so far would fill each slot before `edge`: no end before the slot matters, and behind it the first one is its own.
fn lightest_by_end(keys: &[u64], flags: &[u8], slot: u32, asked: u32) -> u64
    requires { LentAsked keys.now flags.now (length keys.now) slot asked }
    ensures { LightestSay keys.now flags.now (length keys.now) slot asked result }
{
    let mut edge = slot;
    let mut low: u64 = 0;
    let mut p: usize = 0;
    // Kept: rows filled end it, not places, and keys are left until then.
    while edge < asked {
        let key = keys[p];
        p += 1;
        let flag = flags[row_of(key)];
        edge += u32::from(flag);
        low = low.max(flagged(key, flag));
    }
    for &key in &keys[p..] {
        if flags[row_of(key)] == 1 {
            edge += 1;
            low = low.max(key);
            if due_of(key) < edge {
                return low;
            }
        }
    }
    low
}

// Its weight.
pub fn mark_near(keys: &[u64], flags: &[u8], slot: Slot, asked: Slot) -> Weight
    requires { LentAsked keys.now flags.now (length keys.now) slot.0 asked.0 }
    ensures { MarksSay keys.now flags.now (length keys.now) slot.0 asked.0 result.0 }
{
    Weight(weight_of(lightest_by_end(keys, flags, slot.0, asked.0)))
}
