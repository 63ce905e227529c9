// The program stationround: text lines from standard input, a reply line for each on standard output.
#![tactic(auto)]

ghost use Rattle.std.specs.Prelude.{◌+◌, ◌≤◌, ◌<◌, ◌≡◌, length, take};

use serving::{fresh_table, serve_in_room};
use std::io::{Print, Read, Stdin};

// The bytes held and those of one read.
const INPUT_SIZE: usize = 4096;

// Room for the replies to all lines of one read.
const OUT_SIZE: usize = 65536;

// Replies to all complete lines are written before the next read. A proved loop has to end, so it has a count that no run uses up.
fn main(rt: HostRuntime) {
    let mut stdin = rt.stdin();
    let mut table = fresh_table();
    let mut input = [0; INPUT_SIZE];
    let mut out = [0; OUT_SIZE];
    let mut held = 0;
    for _ in 0..u64::MAX {
        let got = read_behind(&mut stdin, &mut input, held);
        let served = serve_in_room(&mut input, held, got, &mut table, &mut out);
        if rt.write_all(&out[..served.wrote]).is_err() {
            return;
        }
        let Some(kept) = served.held else {
            return;
        };
        held = kept;
    }
}

// Reads behind the bytes held; 0 at the end of the input, and where a read fails. There is room for a byte: without any, each read gets 0.
fn read_behind(stdin: &mut Stdin, input: &mut [u8], held: usize) -> usize
    requires { held < length input.old }
    ensures result_in_bounds { held + result ≤ length input.old }
    ensures input_unchanged { take held input.new ≡ take held input.old }
{
    stdin.read(&mut input[held..]).unwrap_or(0)
}
