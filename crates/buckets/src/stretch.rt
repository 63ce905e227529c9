// The segment of a bucket, by counts of rows that all are in the plan.
ghost use Rattle.std.specs.Prelude.{◌≡◌, ◌+◌, ◌*◌, ◌<◌};
ghost use Rattle.buckets.specs.Stretch.{upto, Fits, Full, Begins, Stretches};

// Its first and last bucket.
#[derive(Clone, Copy)]
pub struct Stretch {
    pub first: usize,
    pub last: usize,
}

// What the rows in buckets before one lack to fill as many.
fn lack_before(counts: &[u32], bucket: usize) -> u32
    requires { Fits counts.now bucket }
    ensures { result + upto bucket counts.now ≡ 2048 * bucket }
{
    let mut sum: u32 = 0;
    for count in &counts[..bucket] {
        sum += count;
    }
    2048 * bucket as u32 - sum
}

// The last beginning up to a bucket: a segment begins where the rows before it lack nothing.
fn first_of(counts: &[u32], lack: u32, bucket: usize) -> usize
    requires { Fits counts.now bucket × (lack + upto bucket counts.now ≡ 2048 * bucket) }
    ensures { Begins counts.now bucket result }
{
    let mut first = bucket;
    let mut before = lack;
    // Kept: it goes on until nothing lacks, not over a known range.
    while before != 0 {
        first -= 1;
        before = before + counts[first] - 2048;
    }
    first
}

// The last beginning up to a bucket, then the first end from it on. All buckets before free together lack nothing.
pub fn stretch_of(counts: &[u32], free: usize, bucket: usize) -> Stretch
    requires { Full counts.now free × (bucket < free) }
    ensures { Stretches counts.now free bucket result }
{
    let before = lack_before(counts, bucket);
    let first = first_of(counts, before, bucket);
    let mut lack = before + 2048 - counts[bucket];
    let mut last = bucket;
    // Kept: it goes on until nothing lacks, not over a known range.
    while lack != 0 {
        last += 1;
        lack = lack + 2048 - counts[last];
    }
    Stretch { first, last }
}
