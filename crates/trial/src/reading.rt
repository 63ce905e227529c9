// The command reader and the payload readers on one line.
ghost use Rattle.std.specs.Prelude.{◌≤◌};

use crate::{OUT_SIZE, small};
use forms::{MOST_NUMBERS, line_number, values_of};
use lines::{payload, payload_place, read_command};
use numbers::write;
use refusals::Refusal;

// Behind the refusal, the command with its three values, the payload's place and its length.
const PAYLOAD_AT: usize = 32;

// No payload has more digits.
const MOST_COPIED: usize = 1024;

pub fn try_read(line: &[u8], out: &mut [u8; OUT_SIZE]) -> usize
    ensures { result ≤ 65536 }
{
    let part = payload(line);
    put_read(line, part.len(), out);
    let copied = part.len().min(MOST_COPIED);
    let end = PAYLOAD_AT + copied;
    out[PAYLOAD_AT..end].copy_from_slice(&part[..copied]);
    end
}

fn put_read(line: &[u8], many: usize, out: &mut [u8; OUT_SIZE]) {
    let (refusal, number, values) = match read_command(line) {
        Some(command) => (0, line_number(command), values_of(command)),
        None => (u32::from(Refusal::BadLine), 0, [0; MOST_NUMBERS]),
    };
    write::<4>(out, 0, refusal);
    write::<4>(out, 4, number);
    for i in 0..MOST_NUMBERS {
        write::<4>(out, 8 + 4 * i, values[i]);
    }
    let place = payload_place(line);
    write::<4>(out, 20, small(place.start));
    write::<4>(out, 24, small(place.end));
    write::<4>(out, 28, small(many));
}
