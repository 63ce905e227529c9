// Reply lines, written into a lent buffer: what a call of the program answers, or a refusal's number.
#![tactic(auto)]

ghost use Rattle.std.specs.Prelude.{◌≤◌, length};
ghost use Rattle.rules.specs.Calls.{refused, ticket};
ghost use Rattle.rules.specs.Lines.{reply_room, reply_text};
ghost use Rattle.replying.specs.Replying.{Replies, bare_text, step_text};

use digits::{LINE_END, put_number};
use sorts::Ticket;

// The room that each reply's line fits in.
// Kept: a buffer may be longer, so a clause says the room, and no array type.
pub const REPLY_ROOM: usize = 15;

// Kept: four straight writers; one over a list of numbers with their digits would have a loop, and the sum of the digits in its contract.
// Kept: numbers and no enums, since the contracts give a line for every number.

// An opening's (0) or a sealing's (3), into REPLY_ROOM or more.
pub fn write_bare_in_room(number: u32, buffer: &mut [u8]) -> usize
    requires { reply_room ≤ length buffer.old }
    ensures { Replies (bare_text number) buffer.old buffer.new result }
{
    put_number(number, &mut buffer[0..2]);
    buffer[2] = LINE_END;
    3
}

// A taking's, into REPLY_ROOM or more.
pub fn write_ticket_in_room(given: Ticket, buffer: &mut [u8]) -> usize
    requires { reply_room ≤ length buffer.old }
    ensures { Replies (reply_text (ticket given.0)) buffer.old buffer.new result }
{
    put_number(1, &mut buffer[0..2]);
    put_number(given.0, &mut buffer[2..10]);
    buffer[10] = LINE_END;
    11
}

// A sending's, into REPLY_ROOM or more: what went out (0 silence, 1 a frame, 2 a kept blank), 1 in a leap and 0 in an ordinary step,
// and the ticket (0 for silence).
pub fn write_step_in_room(out: u32, leap: u32, gone: Ticket, buffer: &mut [u8]) -> usize
    requires { reply_room ≤ length buffer.old }
    ensures { Replies (step_text out leap gone.0) buffer.old buffer.new result }
{
    put_number(2, &mut buffer[0..2]);
    put_number(out, &mut buffer[2..4]);
    put_number(leap, &mut buffer[4..6]);
    put_number(gone.0, &mut buffer[6..14]);
    buffer[14] = LINE_END;
    15
}

// A refusal's, into REPLY_ROOM or more.
pub fn write_refusal_in_room(number: u32, buffer: &mut [u8]) -> usize
    requires { reply_room ≤ length buffer.old }
    ensures { Replies (reply_text (refused number)) buffer.old buffer.new result }
{
    put_number(255, &mut buffer[0..2]);
    put_number(number, &mut buffer[2..4]);
    buffer[4] = LINE_END;
    5
}
