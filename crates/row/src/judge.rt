// The judge of one row by its bytes; crate seen has the tests.
ghost use Rattle.std.specs.Prelude.{◌≡◌, length};
ghost use Rattle.rules.specs.Limits.{row_size};
ghost use Rattle.row.specs.Judge.{Differs, Sees, kind_good};

use numbers::{read, read8};
use seen::{Seen, goes_with};
use sorts::{Round, Slot, Ticket};

// The judge of one row on its own 24 bytes; seen is what the rows before it have shown.
pub fn see_row(row: &[u8], slot: Slot, seen: Seen) -> Seen
    requires { length row.now ≡ row_size }
    ensures { Sees slot.0 seen row.now result }
{
    // A word is below 1,024 when its second byte is at most 3 and those behind it are zero; two that overlap hold kind, class and zeros.
    let plain = read8(row, Round::KIND_AT) | read8(row, Round::ROW_SIZE - 8);
    Seen {
        ticket: Ticket(read::<4>(row, Round::TICKET_AT)),
        ahead: less(read::<2>(row, Round::DUE_AT), slot.0),
        weights: seen.weights | less(read::<4>(row, Round::WEIGHT_AT), 1),
        plain: seen.plain | plain,
    }
}

// The difference in 32 bits: from below zero it comes out above every slot and weight.
fn less(a: u32, b: u32) -> u32
    ensures { Differs a b result }
{
    a.wrapping_sub(b)
}

// The class of a row goes with its kind.
pub fn kind_is_good(row: &[u8]) -> bool
    requires { length row.now ≡ row_size }
    ensures { result ≡ kind_good row.now }
{
    goes_with(row[Round::CLASS_AT], row[Round::KIND_AT])
}
