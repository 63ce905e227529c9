// What goes out, and what it leaves in the table where no row but its own changes.
// At most expiring rows are due in the current slot.
// Kept: table, round and expiring each on their own, since the table is written while the head and the count speak of it as it was.
#![tactic(auto)]

ghost use Rattle.std.specs.Prelude.{◌<◌, Bool};
ghost use Rattle.rules.specs.Table.{round_in};
ghost use Rattle.round.specs.Rows.{Ready, at};
ghost use Rattle.closing.specs.Close.{DueNow};
ghost use Rattle.went.specs.Send.{OutOf, Silent, SentSays, Gone, LeavesAlone, KeepsBlank, leap_or_ordinary};

use closing::close_up;
use replies::{Out, Step};
use round::read::Sound;
use row::write::write_kept;
use sorts::{Round, Slot, Weight};

// What goes out of a row. Read before anything is written.
pub fn out_of(sound: &Sound, row: usize) -> Out
    requires { row < sound.now.round.used }
    ensures { OutOf (at (round_in sound.now.table.now) row) result }
{
    let ticket = sound.ticket_at(row);
    if sound.is_kept(row) {
        return Out::KeptBlank(ticket);
    }
    Out::Frame(ticket)
}

// The slot alone moves on: right where no row waits, or where a sealed round has none to send yet.
pub fn send_silence(table: &mut [u8], round: Round, expiring: usize) -> Step
    requires { Ready table.old round × DueNow table.old expiring }
    ensures { Silent table.old table.new result }
{
    close_up(table, round, expiring, round.used); // no row's turn
    Step::Ordinary(Out::Silence)
}

// Only the row that goes leaves: in an ordinary step, or a leap from afar. Its caller makes the step.
pub fn send_row(table: &mut [u8], round: Round, row: usize, expiring: usize) -> Out
    requires { Ready table.old round × (row < round.used) × DueNow table.old expiring }
    ensures gone { Gone table.old table.new row result }
    ensures sent { (leaps : Bool) → LeavesAlone table.old round leaps row → SentSays table.old table.new (leap_or_ordinary leaps result) }
{
    let sound = Sound {
        table: &*table,
        round,
    };
    let out = out_of(&sound, row);
    close_up(table, round, expiring, row);
    out
}

// A leap onto a blank, which is kept in the row that goes.
pub fn send_kept(
    table: &mut [u8],
    round: Round,
    row: usize,
    first: Slot,
    mark: Weight,
    expiring: usize,
) -> Step
    requires { KeepsBlank table.old round row first.0 mark.0 × DueNow table.old expiring }
    ensures { SentSays table.old table.new result }
{
    let sound = Sound {
        table: &*table,
        round,
    };
    let out = out_of(&sound, row);
    write_kept(table, row, first, mark);
    close_up(table, round, expiring, round.used); // no row goes
    Step::Leap(out)
}
