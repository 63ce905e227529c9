// Each call's refusals on a sound table: the first whose test holds.
#![tactic(auto)]

ghost use Rattle.std.specs.Prelude.{◌≡◌, ◌||◌, ltb};
ghost use Rattle.rules.specs.Rows.{framed, until};
ghost use Rattle.rules.specs.Calls.{first_of, open_tests, take_tests, send_tests, mark_tests};
ghost use Rattle.sorts.specs.Tail.{tail_of};
ghost use Rattle.refusals.specs.Refusals.{refusal_in};

use refusals::Refusal;
use sorts::{Class, Round, Slot, Weight};

pub fn may_open(last: Slot) -> Result<(), Refusal>
    ensures { refusal_in result ≡ first_of (open_tests (until last.0)) }
{
    if Round::LAST.0 < last.0 {
        return Err(Refusal::LastTooLate);
    }
    Ok(())
}

pub fn may_take(round: Round, due: Slot, weight: Weight, class: Class) -> Result<(), Refusal>
    ensures { refusal_in result ≡ first_of (take_tests round.slot.0 round.last.0 round.next.0 round.used round.room
        (tail_of round) (framed due.0 weight.0 class.0)) }
{
    let sealed = round.sealed == 1;
    let bad_weight = weight.0 == 0 || Round::WEIGHT.0 < weight.0;
    let bad_slot = not_ahead(round, due);
    let bad_class = Round::CLASS.0 < class.0;
    let spent = round.next.0 == Round::TICKETS.0;
    let full = round.room <= round.used;
    may_send(round)?;
    if sealed {
        return Err(Refusal::Sealed);
    }
    if bad_weight {
        return Err(Refusal::BadWeight);
    }
    if bad_slot {
        return Err(Refusal::BadSlot);
    }
    if bad_class {
        return Err(Refusal::BadClass);
    }
    if spent {
        return Err(Refusal::NoTicketLeft);
    }
    if full {
        return Err(Refusal::TableFull);
    }
    Ok(())
}

// Of a sending, and of every other call that asks for no more than a slot left.
pub fn may_send(round: Round) -> Result<(), Refusal>
    ensures { refusal_in result ≡ first_of (send_tests round.slot.0 round.last.0) }
{
    if round.last.0 < round.slot.0 {
        return Err(Refusal::RoundOver);
    }
    Ok(())
}

pub fn may_mark(round: Round, slot: Slot) -> Result<(), Refusal>
    ensures { refusal_in result ≡ first_of (mark_tests round.slot.0 round.last.0 slot.0) }
{
    may_send(round)?;
    if not_ahead(round, slot) {
        return Err(Refusal::BadSlot);
    }
    Ok(())
}

// Whether a slot lies before the current one or after the last.
fn not_ahead(round: Round, slot: Slot) -> bool
    ensures { result ≡ ltb slot.0 round.slot.0 || ltb round.last.0 slot.0 }
{
    slot.0 < round.slot.0 || round.last.0 < slot.0
}
