// A leap from the segment that leads: onto a row left out or onto its blank, which gets the mark of its segment.
// At most expiring rows are due in the current slot.
// Kept: table, round and expiring each on their own, as crate went says.
#![tactic(auto)]

ghost use Rattle.closing.specs.Close.{DueNow};
ghost use Rattle.went.specs.Send.{SentSays};
ghost use Rattle.leap.specs.Leap.{LeapsBlank, LeapsRow};

use chain::{MarkedSegments, Segments, lower_marks, segment_by, shift_chain};
use closing::close_up;
use keys::{due_of, row_of};
use lead::Lead;
use replies::Step;
use round::read::Sound;
use row::write::write_weight;
use sorts::{Round, Slot, Weight};
use went::{out_of, send_kept};

// A leap onto the blank of the segment that leads, due in its first slot with its mark.
pub fn send_blank(
    table: &mut [u8],
    segments: Segments,
    round: Round,
    lead: Lead,
    expiring: usize,
) -> Step
    requires { LeapsBlank table.old round segments.ends.now segments.tops.now segments.lows.now lead × DueNow table.old expiring }
    ensures { SentSays table.old table.new result }
{
    let own = lead.segment;
    lower_marks(segments.lows, lead.count, own);
    let first = segments.ends[own + 1] + 1;
    let mark = segments.lows[own];
    let row = row_of(lead.key);
    send_kept(table, round, row, Slot(first), Weight(mark), expiring)
}

// A leap onto a row left out: the links between the two segments' ends move, and that row gets its segment's mark.
pub fn send_swapped(
    table: &mut [u8],
    segments: Segments,
    round: Round,
    lead: Lead,
    expiring: usize,
) -> Step
    requires { LeapsRow table.old round segments.ends.now segments.tops.now segments.lows.now lead × DueNow table.old expiring }
    ensures { SentSays table.old table.new result }
{
    let sent = row_of(lead.key);
    let sound = Sound {
        table: &*table,
        round,
    };
    let out = out_of(&sound, sent);
    let own = lead.segment;
    let Segments { ends, tops, lows } = segments;
    let to = segment_by(ends, own, Slot(due_of(lead.other)));
    lower_marks(lows, lead.count, to);
    let marked = MarkedSegments {
        ends,
        tops,
        marks: lows,
    };
    shift_chain(table, &marked, to, own);
    let mark = lows[to];
    write_weight(table, row_of(lead.other), Weight(mark));
    close_up(table, round, expiring, sent);
    Step::Leap(out)
}
