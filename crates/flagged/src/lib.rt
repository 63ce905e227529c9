// The plan's canonical first where rows are left out: of the keys with a flag, which stand in due order, the least of the first slot.
#![tactic(auto)]

ghost use Rattle.std.specs.Prelude.{length};
ghost use Rattle.flagged.specs.Planned.{Lent, FirstSays, SomeFlagged, FirstFlagged};

use keys::{due_of, row_of};

// The place of the first key with a flag; there is one.
fn first_flagged(keys: &[u64], flags: &[u8]) -> usize
    requires { SomeFlagged keys.now flags.now }
    ensures { FirstFlagged keys.now flags.now result }
{
    let mut i: usize = 0;
    // Kept: there is one, so a `for` would only add the test of an end and an answer for none.
    while flags[row_of(keys[i])] != 1 {
        i += 1;
    }
    i
}

// The near rows' keys stand in due order, and of one due slot the least key is the heaviest row's.
pub fn first_planned(keys: &[u64], flags: &[u8]) -> usize
    requires { Lent keys.now flags.now (length keys.now) }
    ensures { FirstSays keys.now flags.now (length keys.now) result }
{
    let place = first_flagged(keys, flags);
    let mut first = keys[place];
    let due = due_of(first);
    for &key in &keys[place + 1..] {
        if due < due_of(key) {
            return row_of(first);
        }
        if flags[row_of(key)] == 1 {
            first = first.min(key);
        }
    }
    row_of(first)
}
