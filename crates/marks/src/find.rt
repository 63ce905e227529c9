// The segment of a slot before free, where some rows are left out: by the near rows' keys in due order.
ghost use Rattle.std.specs.Prelude.{length};
ghost use Rattle.marks.specs.Given.{LentAsked};
ghost use Rattle.marks.specs.Near.{FindsSay};

use keys::{due_of, row_of};

// Its first slot, and the key of the lightest of the plan's rows due by its end.
#[derive(Clone, Copy)]
pub struct Found {
    pub first: u32,
    pub low: u64,
}

// Kept: keys and flags each on their own, here and below: leaving reads the ones while it writes the others, and a struct would be made for each call.
// The plan's rows so far would fill each slot before `edge`: a segment ends there where the latest is due by it.
pub fn find_segment(keys: &[u64], flags: &[u8], slot: u32, asked: u32) -> Found
    requires { LentAsked keys.now flags.now (length keys.now) slot asked }
    ensures { FindsSay keys.now flags.now (length keys.now) slot asked result }
{
    let mut first = slot;
    let mut edge = slot;
    let mut low: u64 = 0;
    for &key in keys {
        if flags[row_of(key)] == 1 {
            edge += 1;
            low = low.max(key);
            if due_of(key) < edge {
                if asked < edge {
                    return Found { first, low };
                }
                first = edge;
            }
        }
    }
    Found { first, low }
}
