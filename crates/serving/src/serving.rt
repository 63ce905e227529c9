// One read: its complete lines answered, a line begun kept for the next read or refused.
ghost use Rattle.std.specs.Prelude.{◌+◌, ◌*◌, ◌≤◌, length};
ghost use Rattle.rules.specs.Lines.{reply_ratio, reply_room};
ghost use Rattle.serving.specs.Serving.{Serves, Ending, RefusedBehind};

use crate::{LONGEST_LINE, Served};
use answering::answer_lines_in_room;
use refusals::Refusal;
use saying::say_refusal;

// The bytes got stand behind those held; no bytes are the end of the input.
// Kept: two lengths beside the input, since what follows both is room that the caller reads into again.
pub fn serve_in_room(
    input: &mut [u8],
    held: usize,
    got: usize,
    table: &mut [u8],
    out: &mut [u8],
) -> Served
    requires { (held + got ≤ length input.old) × (reply_ratio * (held + got) + reply_room ≤ length out.old) }
    ensures { Serves held got input.old table.old out.old input.new table.new out.new result }
{
    if got == 0 {
        return Served {
            wrote: end_input(held, out),
            held: None,
        };
    }
    let n = held + got;
    let progress = answer_lines_in_room(&input[..n], table, out);
    let wrote = progress.wrote;
    if progress.stopped {
        return Served { wrote, held: None };
    }
    let read = progress.read;
    let rest = n - read;
    if LONGEST_LINE < rest {
        return Served {
            wrote: refuse_behind(wrote, out),
            held: None,
        };
    }
    input.copy_within(read..n, 0);
    Served {
        wrote,
        held: Some(rest),
    }
}

// A line that the end of the input leaves unended: refusal 1.
fn end_input(held: usize, out: &mut [u8]) -> usize
    requires { reply_room ≤ length out.old }
    ensures { Ending held out.old out.new result }
{
    if held == 0 {
        return 0;
    }
    say_refusal(Refusal::BadLine, out)
}

// A line begun that is longer than any command's: refusal 1 behind the replies. It answers how many bytes are written then.
fn refuse_behind(wrote: usize, out: &mut [u8]) -> usize
    requires { wrote + reply_room ≤ length out.old }
    ensures { RefusedBehind wrote out.old out.new result }
{
    wrote + say_refusal(Refusal::BadLine, &mut out[wrote..])
}
