// Limits: whether a table may have its length, and a head its numbers.
#![tactic(auto)]

ghost use Rattle.std.specs.Prelude.{◌≡◌};
ghost use Rattle.rules.specs.Table.{length_good, head_tests, every};
ghost use Rattle.sorts.specs.Tail.{tail_of};

use sorts::Round;

// Refusal 2: whether a length is that of a head and 1 to 1,024 rows.
#[tactic(auto, unfolding(rules::specs::Table::length_good))]
pub fn length_is_good(length: usize) -> bool
    ensures { result ≡ length_good length }
{
    Round::HEAD_SIZE + Round::ROW_SIZE <= length
        && (length - Round::HEAD_SIZE) % Round::ROW_SIZE == 0
        && (length - Round::HEAD_SIZE) / Round::ROW_SIZE <= Round::ROWS
}

// Whether the numbers of a head are within the limits. The slot after the last is that of a round that is over.
#[tactic(auto, unfolding(rules::specs::Table::every))]
pub fn head_is_good(round: Round) -> bool
    ensures { result ≡ every (head_tests round.slot.0 round.last.0 round.next.0 round.used round.room
        (tail_of round)) }
{
    round.last.0 <= Round::LAST.0
        && round.slot.0 <= round.last.0 + 1
        && 1 <= round.next.0
        && round.next.0 <= Round::TICKETS.0
        && round.used <= round.room
        && round.sealed <= 1
}
