// What a call answers, said as a line in a lent buffer.
#![tactic(auto)]

ghost use Rattle.std.specs.Prelude.{◌≤◌, length};
ghost use Rattle.rules.specs.Calls.{refused, step};
ghost use Rattle.rules.specs.Lines.{reply_room, reply_text};
ghost use Rattle.refusals.specs.Refusals.{refusal_number};
ghost use Rattle.replies.specs.Replies.{of_out, of_step};
ghost use Rattle.replying.specs.Replying.{Replies, step_text, out_number, out_ticket};
ghost use Rattle.saying.specs.Saying.{of_said};

use refusals::Refusal;
use replies::{Out, Step};
use replying::{
    write_bare_in_room, write_refusal_in_room, write_step_in_room, write_ticket_in_room,
};
use sorts::Ticket;

// What a call did that was not refused; each has its own line.
#[derive(Clone, Copy)]
pub enum Accepted {
    Opened,
    Taken(Ticket),
    Sent(Step),
    Sealed,
}

// The whole of an opening's line, and of a sealing's.
// Kept: numbers, here and below, since they are the digits of the line (bare_text, step_text).
const DONE: u32 = 0;

const CLOSED: u32 = 3;

// Kept: room in a clause, as in crate replying.
pub fn say(said: Result<Accepted, Refusal>, reply: &mut [u8]) -> usize
    requires { reply_room ≤ length reply.old }
    ensures { Replies (reply_text (of_said said)) reply.old reply.new result }
{
    match said {
        Ok(Accepted::Opened) => write_bare_in_room(DONE, reply),
        Ok(Accepted::Taken(ticket)) => write_ticket_in_room(ticket, reply),
        Ok(Accepted::Sent(step)) => say_step(step, reply),
        Ok(Accepted::Sealed) => write_bare_in_room(CLOSED, reply),
        Err(refusal) => say_refusal(refusal, reply),
    }
}

pub fn say_refusal(refusal: Refusal, reply: &mut [u8]) -> usize
    requires { reply_room ≤ length reply.old }
    ensures { Replies (reply_text (refused (refusal_number refusal))) reply.old reply.new result }
{
    write_refusal_in_room(u32::from(refusal), reply)
}

// A step's two numbers, as its line has them.
const ORDINARY: u32 = 0;

const LEAP: u32 = 1;

fn say_step(went: Step, reply: &mut [u8]) -> usize
    requires { reply_room ≤ length reply.old }
    ensures { Replies (reply_text (step (of_step went))) reply.old reply.new result }
{
    match went {
        Step::Ordinary(out) => say_out(out, ORDINARY, reply),
        Step::Leap(out) => say_out(out, LEAP, reply),
    }
}

// What went out, in a step of either number; silence has no ticket.
fn say_out(out: Out, leap: u32, reply: &mut [u8]) -> usize
    requires { reply_room ≤ length reply.old }
    ensures { Replies (step_text (out_number (of_out out)) leap (out_ticket (of_out out))) reply.old reply.new result }
{
    match out {
        Out::Silence => write_step_in_room(0, leap, Ticket(0), reply),
        Out::Frame(ticket) => write_step_in_room(1, leap, ticket, reply),
        Out::KeptBlank(ticket) => write_step_in_room(2, leap, ticket, reply),
    }
}
