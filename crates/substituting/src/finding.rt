// The row of a ticket.
ghost use Rattle.rules.specs.Table.{round_in};
ghost use Rattle.substituting.specs.Finding.{Parts, Finds};

use round::read::Sound;
use sorts::Ticket;

// How many rows have an earlier ticket: tickets rise with rows, so each look halves what is left.
fn rows_before(sound: &Sound, ticket: Ticket) -> usize
    ensures { Parts (round_in sound.now.table.now) ticket.0 result result }
{
    let mut low: usize = 0;
    let mut high = sound.round.used;
    // Kept: a walk by halves over a table's bytes: there is no slice of tickets that a library search takes.
    while low < high {
        let mid = low + (high - low) / 2;
        if sound.ticket_at(mid).0 < ticket.0 {
            low = mid + 1;
        } else {
            high = mid;
        }
    }
    low
}

pub fn find_row(sound: &Sound, ticket: Ticket) -> Option<usize>
    ensures { Finds (round_in sound.now.table.now) ticket.0 result }
{
    let row = rows_before(sound, ticket);
    if row == sound.round.used {
        return None;
    }
    if sound.ticket_at(row).0 != ticket.0 {
        return None;
    }
    Some(row)
}
