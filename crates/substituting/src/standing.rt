// Who stands in for a row: refusal 11 where the row is not in the plan.
ghost use Rattle.std.specs.Prelude.{◌+◌, ◌*◌, ◌≤◌, ◌<◌, length};
ghost use Rattle.rules.specs.Table.{round_in};
ghost use Rattle.round.specs.Rows.{at};
ghost use Rattle.round.specs.Buckets.{Counted};
ghost use Rattle.buckets.specs.Reach.{Reaches};
ghost use Rattle.marks.specs.Given.{LentAsked};
ghost use Rattle.sub.specs.Substitute.{Substitutes};
ghost use Rattle.replies.specs.Replies.{of_substitute, of_substituted};
ghost use Rattle.questions.specs.Seen.{Seen};
ghost use Rattle.substituting.specs.Finding.{StoodIn, There, Named, Flagged};

use buckets::{Reach, reach_of};
use every::substitute_every;
use far::{is_far, substitute_far};
use marks::substitute::substitute_near;
use questions::ask_plan;
use refusals::Refusal;
use replies::Substitute;
use round::read::Sound;
use sorts::{Round, Slot};
use sub::Sub;

// Places around a far row: two for each row, and two more.
const FEW_AROUND: usize = 66;

const AROUND: usize = 2050;

// A substitute as it is answered.
fn named(sound: &Sound, sub: Sub) -> Substitute
    requires { There (round_in sound.now.table.now) sub }
    ensures { Named (round_in sound.now.table.now) sub (of_substitute result) }
{
    match sub {
        Sub::Row(row) => Substitute::Row(sound.ticket_at(row)),
        Sub::Blank(slot) => Substitute::Blank(slot),
    }
}

// A far row needs no plan.
pub fn substitute_row(sound: &Sound, counts: &mut [u32], row: usize) -> Result<Substitute, Refusal>
    requires { Counted (round_in sound.now.table.now) counts.old × (row < sound.now.round.used) }
    ensures { StoodIn (round_in sound.now.table.now) row (of_substituted result) }
{
    let reach = reach_of(counts, sound.round);
    let due = sound.due_at(row);
    if is_far(sound.round, reach, Slot(due)) {
        return Ok(named(sound, substitute_away(sound, reach, row)));
    }
    substitute_before_free(sound, counts, reach, row)
}

// A row due from free on: in small arrays, or in large ones.
fn substitute_away(sound: &Sound, reach: Reach, row: usize) -> Sub
    requires { Reaches (round_in sound.now.table.now) reach × (row < sound.now.round.used)
        × (sound.now.round.slot.0 + reach.free ≤ (at (round_in sound.now.table.now) row).due) }
    ensures { Substitutes (round_in sound.now.table.now) row result }
{
    if sound.round.used <= Round::FEW {
        return substitute_around::<{ FEW_AROUND }>(sound, reach, row);
    }
    substitute_around::<{ AROUND }>(sound, reach, row)
}

fn substitute_around<const PLACES: usize>(sound: &Sound, reach: Reach, row: usize) -> Sub
    requires { (2 * sound.now.round.used + 2 ≤ PLACES) × (PLACES ≤ 2050)
        × Reaches (round_in sound.now.table.now) reach × (row < sound.now.round.used)
        × (sound.now.round.slot.0 + reach.free ≤ (at (round_in sound.now.table.now) row).due) }
    ensures { Substitutes (round_in sound.now.table.now) row result }
{
    let mut around = [0u16; PLACES];
    substitute_far(sound, &mut around, reach, row)
}

// A row due before free; where no row is left out the counts tell its segment, else the plan does.
fn substitute_before_free(
    sound: &Sound,
    counts: &mut [u32],
    reach: Reach,
    row: usize,
) -> Result<Substitute, Refusal>
    requires { Seen sound.now.table.now counts.old sound.now.round reach × (row < sound.now.round.used)
        × ((at (round_in sound.now.table.now) row).due < sound.now.round.slot.0 + reach.free) }
    ensures { StoodIn (round_in sound.now.table.now) row (of_substituted result) }
{
    if reach.over == 0 {
        return Ok(named(sound, substitute_every(sound, counts, reach, row)));
    }
    let current = sound.round.slot;
    let due = Slot(sound.due_at(row));
    let sub = ask_plan(sound, counts, reach, |keys, flags, _| {
        substitute_flagged(keys, flags, current, due, row)
    })?;
    Ok(named(sound, sub))
}

// By the plan's keys and flags, for a row due then.
fn substitute_flagged(
    keys: &[u64],
    flags: &[u8],
    current: Slot,
    due: Slot,
    row: usize,
) -> Result<Sub, Refusal>
    requires { LentAsked keys.now flags.now (length keys.now) current.0 due.0 × (row < length flags.now) }
    ensures { Flagged keys.now flags.now current.0 due.0 row result }
{
    if flags[row] != 1 {
        return Err(Refusal::NotInPlan);
    }
    Ok(substitute_near(keys, flags, current, due))
}
