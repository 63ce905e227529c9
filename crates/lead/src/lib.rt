// The segment whose top goes first: scores, one segment closed, and where one ends.
#![tactic(auto)]

ghost use Rattle.std.specs.Prelude.{◌≡◌, ◌≤◌, ◌<◌, length, set};
ghost use Rattle.rules.specs.PlanM.{score};
ghost use Rattle.keys.specs.Key.{weight_of, blank_key};
ghost use Rattle.lead.specs.Closed.{ends_here, closed};

use keys::weight_of;
use sorts::{Slot, Weight};

// How many segments there are, and of the one whose top goes before all others': score, top, number, and its substitute (BLANK for none).
// Kept: a substitute is a key, BLANK for none, since the pass takes the least of keys and a score is worked from either alike.
#[derive(Clone, Copy)]
pub struct Lead {
    pub count: usize,
    pub score: u64,
    pub key: u64,
    pub segment: usize,
    pub other: u64,
}

// Two rows compared by weight + φ × substitute: F(38) and F(39) stand for 1 and φ.
pub fn score_of(weight: Weight, substitute: Weight) -> u64
    ensures { result ≡ score weight.0 substitute.0 }
{
    u64::from(weight.0) * 39088169 + u64::from(substitute.0) * 63245986
}

// A segment is complete: it is stored, and leads from an equal score on, since it is earlier.
// Kept: three arrays, since counts and heap serve again as ends and tops (decision 26); one of whole segments would pass the limit of 28,000 bytes.
#[tactic(auto, unfolding(crate::specs::Closed::closed))]
pub fn close_segment(
    ends: &mut [u32],
    tops: &mut [u64],
    lows: &mut [u32],
    lead: Lead,
    end: Slot,
    heavy: u64,
    light: u64,
    other: u64,
) -> Lead
    requires { (lead.count < length ends.old) × (lead.count < length tops.old) × (lead.count < length lows.old)
        × (heavy ≤ blank_key) × (light ≤ blank_key) × (other ≤ blank_key) }
    ensures { (result ≡ closed lead heavy other) × (ends.new ≡ set ends.old lead.count end.0)
        × (tops.new ≡ set tops.old lead.count heavy)
        × (lows.new ≡ set lows.old lead.count (weight_of light)) }
{
    let at = lead.count;
    let score = score_of(Weight(weight_of(heavy)), Weight(weight_of(other)));
    ends[at] = end.0;
    tops[at] = heavy;
    lows[at] = weight_of(light);
    if lead.score <= score {
        return Lead {
            count: at + 1,
            score,
            key: heavy,
            segment: at,
            other,
        };
    }
    Lead {
        count: at + 1,
        ..lead
    }
}

// The plan's rows so far fill every slot by this one: a segment ends here, unless it is the open one's end.
#[tactic(auto, unfolding(crate::specs::Closed::ends_here))]
pub fn ends_here(due: Slot, edge: usize, end: Slot) -> bool
    ensures { result ≡ ends_here due.0 edge end.0 }
{
    due != end && (due.0 as usize) < edge
}
