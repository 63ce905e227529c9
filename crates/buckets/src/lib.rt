// How far rows fill every slot, by their counts alone.
#![tactic(auto)]

ghost use Rattle.std.specs.Prelude.{◌≡◌, ◌+◌, ◌≤◌, max};
ghost use Rattle.buckets.specs.Reach.{Levels, Multiples, ReachSays, head_top, passed};

pub mod stretch; // stretch.rt: the segment of a bucket where no row is left out

use round::read::top_of;
use sorts::Round;

// Every slot before `free` ahead is taken by the plan; `over` rows are left out.
#[derive(Clone, Copy)]
pub struct Reach {
    pub free: usize,
    pub over: usize,
}

// What a bucket takes from the level, where a row adds 2,048: so of places with as many rows too many the last has the greatest level.
const FALL: u32 = 2047;

const TWO_FALLS: u32 = 2 * FALL;

const FOUR_FALLS: u32 = 4 * FALL;

// Four buckets at once, measured faster: the rows up to the first are a, up to the third c; the second adds b to a, the fourth d to c.
fn turn(most: u32, a: u32, b: u32, c: u32, d: u32) -> u32
    requires { most + a + b + c + d ≤ 16777216 }
    ensures { result ≡ passed (passed (passed (passed most a) (a + b)) c) (c + d) }
{
    (most + FOUR_FALLS).max((a + b.max(FALL) + TWO_FALLS).max(c + d.max(FALL)))
}

// The greatest level tells the most rows too many, and where. So far: 2,048 for each row, and the greatest level, kept above 0 by what all took.
pub fn reach_of(counts: &[u32], round: Round) -> Reach
    requires { (round.slot.0 ≤ round.last.0) × Multiples counts.now (head_top round) }
    ensures { ReachSays counts.now (head_top round) result }
{
    let top = top_of(round);
    let (fours, rest) = counts[..=top].as_chunks::<4>();
    let mut sum: u32 = 0;
    let mut most: u32 = 0;
    for four in fours {
        let a = sum + four[0];
        let b = four[1];
        let c = a + b + four[2];
        let d = four[3];
        most = turn(most, a, b, c, d);
        sum = c + d;
    }
    for count in rest {
        sum += count;
        most = (most + FALL).max(sum);
    }
    let level = most - FALL * (top as u32 + 1);
    Reach {
        free: (level % 2048) as usize,
        over: (level / 2048) as usize,
    }
}
