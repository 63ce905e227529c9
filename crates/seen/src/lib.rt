// What the rows so far have shown, and what is asked of it: tests of numbers alone.
#![tactic(auto)]

ghost use Rattle.std.specs.Prelude.{◌&&◌, ◌||◌, ◌≡◌, ◌%◌, ltb, leb, eqb};
ghost use Rattle.rules.specs.Limits.{most_weight, most_class};

use sorts::{Round, Ticket};

// The last row's ticket and how far ahead it is due; or-ed together, all weights less 1, and all words that hold kind, class and zeros.
#[derive(Clone, Copy)]
pub struct Seen {
    pub ticket: Ticket,
    pub ahead: u32,
    pub weights: u32,
    pub plain: u64,
}

// Asked of each row: its ticket is above the one before, and its due slot one that is left.
pub fn row_follows(before: Ticket, seen: Seen, span: u32) -> bool
    ensures { result ≡ ltb before.0 seen.ticket.0 && leb seen.ahead span }
{
    (before.0 < seen.ticket.0) & (seen.ahead <= span)
}

// Asked once, of all rows: rising tickets are below the next one where the last is, and no weight is out of bounds.
pub fn numbers_pass(seen: Seen, next: Ticket) -> bool
    ensures { result ≡ ltb seen.ticket.0 next.0 && ltb seen.weights most_weight }
{
    (seen.ticket.0 < next.0) & (seen.weights < Round::WEIGHT.0)
}

// Asked once, of all rows: their classes and zeros, in their words together.
pub fn words_pass(seen: Seen) -> bool
    ensures { result ≡ ltb seen.plain 1024 }
{
    seen.plain < 1024
}

// The same, and all rows are frames: the first byte of their words is 0. The compiler makes one test of it.
pub fn frames_pass(seen: Seen) -> bool
    ensures { result ≡ ltb seen.plain 1024 && eqb (seen.plain % 256) 0 }
{
    words_pass(seen) & (seen.plain % 256 == 0)
}

// A frame has any class that is fair, a kept blank its own.
// Kept: any byte may stand as a kind or a class in a table that is not judged yet, so both are numbers and no enums.
pub fn goes_with(class: u8, kind: u8) -> bool
    ensures { result ≡ leb kind 1 && (eqb kind 0 || eqb class most_class) }
{
    if kind == 0 {
        return true;
    }
    (kind == 1) & (u32::from(class) == Round::CLASS.0)
}
