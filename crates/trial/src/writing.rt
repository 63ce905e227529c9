// The line writer: its reply, and every byte of the buffer lent.
ghost use Rattle.std.specs.Prelude.{◌≤◌};

use crate::{OUT_SIZE, put_counted};
use forms::Command;
use writer::write_line;

// What each byte of the buffer is before the call.
const BEFORE: u8 = 42;

pub fn try_write(command: Command, payload: &[u8], room: usize, out: &mut [u8; OUT_SIZE]) -> usize
    requires { room ≤ 1024 }
    ensures { result ≤ 65536 }
{
    let end = 8 + room;
    out[8..end].fill(BEFORE);
    put_counted(write_line(command, payload, &mut out[8..end]), out);
    end
}
