// Listings of a view's rows into a lent list of entries, or refusal 2, 3, 5 or 12.
#![tactic(auto)]

ghost use Rattle.std.specs.Prelude.{◌≡◌, ◌≤◌, replicate};
ghost use Rattle.rules.specs.Table.{round_in};
ghost use Rattle.rules.specs.Looking.{shows};
ghost use Rattle.round.specs.Judge.{ScanAsks};
ghost use Rattle.round.specs.Buckets.{Counted};
ghost use Rattle.listing.specs.Entries.{of_view, of_listed, Lists};
ghost use Rattle.listing.specs.Listing.{RowThere, entry_in, ListingSays, RowsShown};

use checks::may_send;
use order::{Order, order_of};
use refusals::Refusal;
use round::read::Sound;
use round::sound::scan;
use row::entry::numbers_at;
use sorts::{Round, Slot, Ticket, Weight};

// What is listed.
// Kept: callers name what they list, as docs/LINES.md says (`list(View::Plan, ..)`).
#[derive(Clone, Copy)]
pub enum View {
    Plan,
}

// A row, as it is listed.
#[derive(Clone, Copy)]
pub struct Entry {
    pub ticket: Ticket,
    pub due: Slot,
    pub weight: Weight,
}

// How many rows are listed; entries past them do not change.
pub fn list(view: View, table: &[u8], entries: &mut [Entry]) -> Result<usize, Refusal>
    ensures { Lists (of_view view) (of_listed result) table.now table.now entries.old entries.new }
{
    let order = order_for(view, table, entries.len())?;
    for i in 0..order.count {
        entries[i] = entry_at(view, table, order.at[i]);
    }
    Ok(order.count)
}

// The entry of one row.
fn entry_at(view: View, table: &[u8], row: u16) -> Entry
    requires { RowThere table.now row }
    ensures { result ≡ entry_in (of_view view) table.now row }
{
    let numbers = numbers_at(table, row as usize);
    let ticket = numbers.ticket;
    let due = numbers.due;
    let weight = numbers.weight;
    match view {
        View::Plan => Entry {
            ticket,
            due,
            weight,
        },
    }
}

// The rows to list in their order, where a list of some room has an entry for each.
// Kept: it chooses one of two sizes by the table's length; a shared function for that would take the rest as a closure, and its clauses with it.
fn order_for(view: View, table: &[u8], room: usize) -> Result<Order, Refusal>
    ensures { ListingSays (of_view view) table.now room result }
{
    if table.len() <= Round::FEW_SIZE {
        return order_by::<{ Round::FEW_PLACES }>(view, table, room);
    }
    order_by::<{ Round::PLACES }>(view, table, room)
}

// The same with so many places for counts.
fn order_by<const PLACES: usize>(view: View, table: &[u8], room: usize) -> Result<Order, Refusal>
    requires { ScanAsks table.now (replicate PLACES 0) × (PLACES ≤ 1026) }
    ensures { ListingSays (of_view view) table.now room result }
{
    let mut counts = [0u32; PLACES];
    let round = scan(table, &mut counts)?;
    may_send(round)?;
    let sound = Sound { table, round };
    let order = rows_of(view, &sound, &mut counts);
    if room < order.count {
        return Err(Refusal::NoRoom);
    }
    Ok(order)
}

// The rows that a view shows, in their order.
fn rows_of(view: View, sound: &Sound, counts: &mut [u32]) -> Order
    requires { Counted (round_in sound.now.table.now) counts.old }
    ensures { RowsShown (round_in sound.now.table.now) (shows (of_view view) (round_in sound.now.table.now)).items result }
{
    match view {
        View::Plan => order_of(sound, counts),
    }
}
