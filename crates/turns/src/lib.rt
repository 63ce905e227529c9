// A command's turn: its call on the table, and the line of the reply.
#![tactic(auto)]

ghost use Rattle.std.specs.Prelude.{◌≤◌, length};
ghost use Rattle.rules.specs.Calls.{Says};
ghost use Rattle.rules.specs.Lines.{call_of, reply_room};
ghost use Rattle.forms.specs.Cases.{of_command};
ghost use Rattle.saying.specs.Saying.{of_said};
ghost use Rattle.turns.specs.Turns.{Turns};

use forms::Command;
use opening::open_round;
use refusals::Refusal;
use saying::{Accepted, say};
use sealing::seal_round;
use sending::send_slot;
use sorts::Class;
use taking::take_frame;

// Kept: room in a clause, as in crate replying.
pub fn take_turn_in_room(command: Command, table: &mut [u8], reply: &mut [u8]) -> usize
    requires { reply_room ≤ length reply.old }
    ensures { Turns (of_command command) table.old table.new reply.old reply.new result }
{
    say(call(command, table), reply)
}

// Line 01 takes a frame of class 0.
fn call(command: Command, table: &mut [u8]) -> Result<Accepted, Refusal>
    ensures { Says (call_of (of_command command)) (of_said result) table.old table.new }
{
    match command {
        Command::Open(last) => {
            open_round(last, table)?;
            Ok(Accepted::Opened)
        }
        Command::Take(due, weight) => {
            let ticket = take_frame(due, weight, Class(0), table)?;
            Ok(Accepted::Taken(ticket))
        }
        Command::Send => Ok(Accepted::Sent(send_slot(table)?)),
        Command::Seal => {
            seal_round(table)?;
            Ok(Accepted::Sealed)
        }
        Command::Classed(due, weight, class) => {
            let ticket = take_frame(due, weight, class, table)?;
            Ok(Accepted::Taken(ticket))
        }
    }
}
