// The substitute of a row due before free, where some rows are left out.
ghost use Rattle.std.specs.Prelude.{length};
ghost use Rattle.marks.specs.Given.{Lent, LentAsked};
ghost use Rattle.marks.specs.Near.{LeftSay, SubstitutesSay};

use crate::find::find_segment;
use keys::{BLANK, due_of, row_of};
use sorts::Slot;
use sub::Sub;

// The heaviest row left out that is due from a slot on; BLANK for none.
// Kept: as a key, BLANK is what a blank would have, and LeftSay names it.
fn heaviest_out(keys: &[u64], flags: &[u8], from: u32) -> u64
    requires { Lent keys.now flags.now (length keys.now) }
    ensures { LeftSay keys.now flags.now (length keys.now) from result }
{
    let mut out = BLANK;
    // Kept: by places, since what the loop keeps speaks of the keys from a place on; so would an iterator's, of a list yielded backwards.
    for p in (0..keys.len()).rev() {
        let key = keys[p];
        if due_of(key) < from {
            return out;
        }
        if flags[row_of(key)] != 1 {
            out = out.min(key);
        }
    }
    out
}

// Who stands in for a row of the plan due then: of the first segment its lightest row; of a later one the heaviest row left out from
// its first slot on, or else the blank due there.
pub fn substitute_near(keys: &[u64], flags: &[u8], slot: Slot, due: Slot) -> Sub
    requires { LentAsked keys.now flags.now (length keys.now) slot.0 due.0 }
    ensures { SubstitutesSay keys.now flags.now (length keys.now) slot.0 due.0 result }
{
    let found = find_segment(keys, flags, slot.0, due.0);
    if found.first == slot.0 {
        return Sub::Row(row_of(found.low));
    }
    let out = heaviest_out(keys, flags, found.first);
    if out == BLANK {
        return Sub::Blank(Slot(found.first));
    }
    Sub::Row(row_of(out))
}
