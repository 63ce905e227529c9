// The plan's total.
ghost use Rattle.std.specs.Prelude.{◌≡◌};
ghost use Rattle.rules.specs.Plan.{total, total_weight};
ghost use Rattle.rules.specs.Table.{round_in};
ghost use Rattle.marks.specs.Total.{Lost};

use round::read::Sound;

// The weight of all rows.
fn sum_all(sound: &Sound) -> u64
    ensures { result ≡ total_weight (round_in sound.now.table.now).rows }
{
    let mut sum: u64 = 0;
    for i in 0..sound.round.used {
        sum += u64::from(sound.weight_at(i));
    }
    sum
}

// All rows but those left out, which weigh `lost`.
pub fn total_of(sound: &Sound, lost: u64) -> u64
    requires { Lost (round_in sound.now.table.now) lost }
    ensures { result ≡ total (round_in sound.now.table.now) }
{
    sum_all(sound) - lost
}
