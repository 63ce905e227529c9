// Which row goes, once the plan's segments are known or no row is left out.
// At most expiring rows are due in the current slot.
// Kept: table, round and expiring each on their own, as crate went says.
#![tactic(auto)]

ghost use Rattle.std.specs.Prelude.{◌≡◌, ◌*◌, ◌≤◌};
ghost use Rattle.keys.specs.Key.{weight_of, blank_key};
ghost use Rattle.closing.specs.Close.{DueNow};
ghost use Rattle.went.specs.Send.{SentSays};
ghost use Rattle.step.specs.Step.{PlannedStep, WholeStep};

use chain::Segments;
use keys::{BLANK, row_of, weight_of};
use lead::Lead;
use leap::{send_blank, send_swapped};
use replies::Step;
use sorts::Round;
use went::{send_kept, send_row};
use whole::Whole;

// A far row has no substitute, so its score is its weight's alone.
fn far_score(far: u64) -> u64
    requires { far ≤ blank_key }
    ensures { result ≡ weight_of far * 39088169 }
{
    u64::from(weight_of(far)) * 39088169
}

// The heaviest far row goes if it scores more than the segment that leads; else that segment's heaviest row: in an ordinary step from the first, else in a leap.
// Kept: three slices, since the check has no proof of a function that takes a struct with a slice to write and passes it on; leaps get theirs here.
pub fn send_planned(
    table: &mut [u8],
    ends: &[u32],
    tops: &[u64],
    lows: &mut [u32],
    round: Round,
    far: u64,
    lead: Lead,
    expiring: usize,
) -> Step
    requires { PlannedStep table.old round ends.now tops.now lows.old far lead × DueNow table.old expiring }
    ensures { SentSays table.old table.new result }
{
    if lead.score < far_score(far) {
        return Step::Leap(send_row(table, round, row_of(far), expiring));
    }
    if lead.segment + 1 == lead.count {
        return Step::Ordinary(send_row(table, round, row_of(lead.key), expiring));
    }
    let segments = Segments { ends, tops, lows };
    if lead.other == BLANK {
        return send_blank(table, segments, round, lead, expiring);
    }
    send_swapped(table, segments, round, lead, expiring)
}

// The same where no row is left out: as the passes over the table found it.
pub fn send_whole(table: &mut [u8], round: Round, whole: Whole, expiring: usize) -> Step
    requires { WholeStep table.old round whole × DueNow table.old expiring }
    ensures { SentSays table.old table.new result }
{
    match whole {
        Whole::First { row } => Step::Ordinary(send_row(table, round, row, expiring)),
        Whole::Far { row } => Step::Leap(send_row(table, round, row, expiring)),
        Whole::Kept { row, first, mark } => send_kept(table, round, row, first, mark, expiring),
    }
}
