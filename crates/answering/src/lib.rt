// The complete lines of a buffer answered one after another: their calls on the table, their replies in a lent buffer.
#![tactic(auto)]

ghost use Rattle.std.specs.Prelude.{◌≡◌, false, ◌+◌, ◌*◌, ◌≤◌, length};
ghost use Rattle.rules.specs.Lines.{reply_ratio, reply_room};
ghost use Rattle.answering.specs.Answering.{Answers};

use lines::{line_end, read_command};
use refusals::Refusal;
use saying::say_refusal;
use turns::take_turn_in_room;

// How far the lines of a buffer are answered: the bytes read, the bytes of replies, and whether refusal 1 was among them.
// Kept: both counts mean the same whether it stopped or not, so variants would only repeat them.
#[derive(Clone, Copy)]
pub struct Progress {
    pub read: usize,
    pub wrote: usize,
    pub stopped: bool,
}

// As long as a complete line is there; nothing follows refusal 1. A reply is at most reply_ratio times as long as its line.
pub fn answer_lines_in_room(input: &[u8], table: &mut [u8], out: &mut [u8]) -> Progress
    requires { reply_ratio * length input.now + reply_room ≤ length out.old }
    ensures answers { Answers input.now table.old out.old table.new out.new result }
    ensures input_value { input.now ≡ input.now }
{
    let mut read = 0;
    let mut wrote = 0;
    // Kept: what is read and what is written move at their own pace, and the last line may not be whole, so no range counts them.
    while let Some(end) = line_end(input, read) {
        let next = end + 1;
        let Some(command) = read_command(&input[read..next]) else {
            wrote += say_refusal(Refusal::BadLine, &mut out[wrote..]);
            return Progress {
                read: next,
                wrote,
                stopped: true,
            };
        };
        wrote += take_turn_in_room(command, table, &mut out[wrote..]);
        read = next;
    }
    so_far(read, wrote)
}

// Where refusal 1 was not among the replies.
fn so_far(read: usize, wrote: usize) -> Progress
    ensures { (result.read ≡ read) × (result.wrote ≡ wrote) × (result.stopped ≡ false) }
{
    Progress {
        read,
        wrote,
        stopped: false,
    }
}
