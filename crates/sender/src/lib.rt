// Sending a slot of a sound table: nothing, the row that goes where all are in the plan, or what goes where some are left out.
// Kept: table, round and expiring each on their own, as crate went says.
#![tactic(auto)]

ghost use Rattle.rules.specs.Table.{round_in};
ghost use Rattle.round.specs.Rows.{Ready};
ghost use Rattle.round.specs.Buckets.{Counted};
ghost use Rattle.closing.specs.Close.{DueNow};
ghost use Rattle.went.specs.Send.{SentSays};
ghost use Rattle.whole.specs.Whole.{Given};

use buckets::{Reach, reach_of};
use crowded::send_in_arrays;
use first::first_of_all;
use replies::Step;
use round::read::Sound;
use sorts::Round;
use step::send_whole;
use went::{send_row, send_silence};
use whole::choose_whole;

// No row is left out. A sealed round is silent where rows fill not even the current slot.
fn send_all(table: &mut [u8], counts: &[u32], round: Round, reach: Reach, expiring: usize) -> Step
    requires { Given table.old counts.now round reach × DueNow table.old expiring }
    ensures { SentSays table.old table.new result }
{
    let sound = Sound {
        table: &*table,
        round,
    };
    if round.sealed != 1 {
        let whole = choose_whole(&sound, counts, reach);
        return send_whole(table, round, whole, expiring);
    }
    if reach.free == 0 {
        return send_silence(table, round, expiring);
    }
    let row = first_of_all(&sound);
    Step::Ordinary(send_row(table, round, row, expiring))
}

// A slot is left to send. Counts are the scan's.
pub fn send_sound(table: &mut [u8], counts: &mut [u32], round: Round) -> Step
    requires { Ready table.old round × Counted (round_in table.old) counts.old }
    ensures { SentSays table.old table.new result }
{
    if round.used == 0 {
        return send_silence(table, round, 0);
    }
    let reach = reach_of(counts, round);
    let expiring = (counts[0] / 2048) as usize;
    if reach.over == 0 {
        return send_all(table, counts, round, reach, expiring);
    }
    if round.used <= Round::FEW {
        return send_in_arrays::<{ Round::FEW_PLACES }>(table, counts, round, reach, expiring);
    }
    send_in_arrays::<{ Round::PLACES }>(table, counts, round, reach, expiring)
}
