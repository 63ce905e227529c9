// The C boundary: the calls over numbers and the lent table, each reply packed into one number by docs/REPLIES.md.
#![tactic(auto)]

ghost use Rattle.rules.specs.Rows.{framed, until};
ghost use Rattle.rules.specs.Calls.{taking, sending, sealing, marking, totalling, opening, acting, asking};
ghost use Rattle.rules.specs.Looking.{substitute_answer};
ghost use Rattle.station.specs.Exports.{Exports, ExportsLook};

use marking::mark_of;
use opening::open_round;
use packing::pack_reply;
use sealing::seal_round;
use sending::send_slot;
use sorts::{Class, Slot, Ticket, Weight};
use substituting::substitute_of;
use taking::take_frame;
use totalling::plan_total;

// Kept: an export for each call, as the C interface names them.
#[unsafe(no_mangle)]
pub extern "C" fn lirvedd_open(last: u32, table: &mut [u8]) -> u64
    ensures { Exports (opening (until last)) result table.old table.new }
{
    pack_reply(open_round(Slot(last), table))
}

// A frame of class 0.
#[unsafe(no_mangle)]
pub extern "C" fn lirvedd_take(due: u32, weight: u32, table: &mut [u8]) -> u64
    ensures { Exports (acting (taking (framed due weight 0))) result table.old table.new }
{
    pack_reply(take_frame(Slot(due), Weight(weight), Class(0), table))
}

#[unsafe(no_mangle)]
pub extern "C" fn lirvedd_take_class(due: u32, weight: u32, class: u32, table: &mut [u8]) -> u64
    ensures { Exports (acting (taking (framed due weight class))) result table.old table.new }
{
    pack_reply(take_frame(Slot(due), Weight(weight), Class(class), table))
}

#[unsafe(no_mangle)]
pub extern "C" fn lirvedd_send(table: &mut [u8]) -> u64
    ensures { Exports (acting sending) result table.old table.new }
{
    pack_reply(send_slot(table))
}

#[unsafe(no_mangle)]
pub extern "C" fn lirvedd_seal(table: &mut [u8]) -> u64
    ensures { Exports (acting sealing) result table.old table.new }
{
    pack_reply(seal_round(table))
}

// The calls below only read the table.
#[unsafe(no_mangle)]
pub extern "C" fn lirvedd_mark(slot: u32, table: &[u8]) -> u64
    ensures { Exports (asking (marking slot)) result table.now table.now }
{
    pack_reply(mark_of(Slot(slot), table))
}

#[unsafe(no_mangle)]
pub extern "C" fn lirvedd_total(table: &[u8]) -> u64
    ensures { Exports (asking totalling) result table.now table.now }
{
    pack_reply(plan_total(table))
}

#[unsafe(no_mangle)]
pub extern "C" fn lirvedd_substitute(ticket: u32, table: &[u8]) -> u64
    ensures { ExportsLook (substitute_answer ticket table.now) result table.now table.now }
{
    pack_reply(substitute_of(Ticket(ticket), table))
}
