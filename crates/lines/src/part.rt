// A line's payload: its place, and that part of the caller's line.
ghost use Rattle.std.specs.Prelude.{◌≡◌};
ghost use Rattle.lines.specs.Part.{PayloadPart, PayloadPlaced};

use crate::{Place, read_command};
use forms::{form_of, line_number};

// From start up to end; 0 and 0 with no payload digits, and of a line that is refused.
// Kept: no Option, since the contract promises the numbers 0 and 0 there (payload_placed).
pub fn payload_place(line: &[u8]) -> Place
    ensures payload_placed { PayloadPlaced line.now result.start result.end }
    ensures line_value { line.now ≡ line.now }
{
    let none = Place { start: 0, end: 0 };
    let Some(command) = read_command(line) else {
        return none;
    };
    let front = form_of(line_number(command)).front;
    let n = line.len();
    if front + 1 < n {
        let end = n - 1;
        Place { start: front, end }
    } else {
        none
    }
}

// The payload digits, where they stand in the line.
pub fn payload(line: &[u8]) -> &[u8]
    ensures payload_part { PayloadPart line.entry result }
    ensures line_value { line.now ≡ line.now }
{
    let place = payload_place(line);
    &line[place.start..place.end]
}
