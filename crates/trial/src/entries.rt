// A listing into entries that are all alike before the call: the reply, and every entry lent.
ghost use Rattle.std.specs.Prelude.{◌+◌, ◌≤◌};

use crate::request::MOST_ROOM;
use crate::{OUT_SIZE, put_counted};
use listing::{Entry, View, list};
use numbers::write;
use sorts::{Slot, Ticket, Weight};

// What each entry is before the call.
const BEFORE: Entry = Entry {
    ticket: Ticket(0xEEEEEEEE),
    due: Slot(0xDDDDDDDD),
    weight: Weight(0xCCCCCCCC),
};

pub fn try_list(table: &[u8], room: usize, out: &mut [u8; OUT_SIZE]) -> usize
    requires { room ≤ 1024 }
    ensures { result ≤ 65536 }
{
    let mut entries = [BEFORE; MOST_ROOM];
    put_counted(list(View::Plan, table, &mut entries[..room]), out);
    for i in 0..room {
        put_entry(entries[i], 8 + 12 * i, out);
    }
    8 + 12 * room
}

fn put_entry(entry: Entry, at: usize, out: &mut [u8; OUT_SIZE])
    requires { at + 12 ≤ 65536 }
{
    write::<4>(out, at, entry.ticket.0);
    write::<4>(out, at + 4, entry.due.0);
    write::<4>(out, at + 8, entry.weight.0);
}
