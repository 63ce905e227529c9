// A program for the tests: makes the calls that neither C nor stationround reaches, as requests ask (tests/trial.md).
#![tactic(auto)]

ghost use Rattle.std.specs.Prelude.{◌≤◌};

use crate::entries::try_list;
use crate::reading::try_read;
use crate::request::{Asked, HEAD_SIZE, MOST_SIZE, Request};
use crate::writing::try_write;
use numbers::write;
use refusals::Refusal;
use std::io::{Read, Stdin, Stdout, Write};

mod request; // request.rt: what a request asks for
mod entries; // entries.rt: the listing
mod writing; // writing.rt: the line writer
mod reading; // reading.rt: the command, and the payload with its place

pub const OUT_SIZE: usize = 65536;

// A proved loop has to end, so it has a count that no run uses up.
fn main(rt: HostRuntime) {
    let mut stdin = rt.stdin();
    let mut stdout = rt.stdout();
    let mut body = [0; MOST_SIZE];
    let mut out = [0; OUT_SIZE];
    for _ in 0..u64::MAX {
        if answer_next(&mut stdin, &mut stdout, &mut body, &mut out).is_none() {
            return;
        }
    }
}

// None where no whole request is there, or its outcome cannot be written.
fn answer_next(
    stdin: &mut Stdin,
    stdout: &mut Stdout,
    body: &mut [u8; MOST_SIZE],
    out: &mut [u8; OUT_SIZE],
) -> Option<()> {
    let mut head = [0; HEAD_SIZE];
    stdin.read_exact(&mut head).ok()?;
    let request = Request::of(&head)?;
    let body = &mut body[..request.size];
    stdin.read_exact(body).ok()?;
    let n = outcome(request.asked?, request.room, body, out);
    stdout.write_all(&out[..n]).ok()
}

// The outcome's length.
fn outcome(asked: Asked, room: usize, body: &[u8], out: &mut [u8; OUT_SIZE]) -> usize
    requires { room ≤ 1024 }
    ensures { result ≤ 65536 }
{
    match asked {
        Asked::List => try_list(body, room, out),
        Asked::Write(command) => try_write(command, body, room, out),
        Asked::Read => try_read(body, out),
    }
}

// The refusal, 0 if there is none, and the count, 0 on a refusal.
pub fn put_counted(counted: Result<usize, Refusal>, out: &mut [u8; OUT_SIZE]) {
    let (refusal, count) = match counted {
        Ok(count) => (0, small(count)),
        Err(refusal) => (u32::from(refusal), 0),
    };
    write::<4>(out, 0, refusal);
    write::<4>(out, 4, count);
}

// A length or a place as a number of 4 bytes; one that is out of all bounds shows as FFFFFFFF.
// Kept: a try_from would tell numbers of 65,536 and more as they are, and none is in bounds here.
pub fn small(n: usize) -> u32 {
    if n < 65536 { n as u32 } else { u32::MAX }
}
