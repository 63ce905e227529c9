// A line's command: digits ended by 0A, the line's number first, then what its form says.
ghost use Rattle.std.specs.Prelude.{◌≡◌, ◌+◌, ◌≤◌, length};
ghost use Rattle.rules.specs.Limits.{short_digits};
ghost use Rattle.rules.specs.Lines.{count_digits, read};
ghost use Rattle.forms.specs.Cases.{of_reading};
ghost use Rattle.lines.specs.Numbers.{Collects};

use digits::{LINE_END, SHORT_DIGITS, digits_only, number, payload_fits};
use forms::{Command, Form, MOST_NUMBERS, command_of, form_of};

// A command; none is refusal 1.
pub fn read_command(line: &[u8]) -> Option<Command>
    ensures result_value { of_reading result ≡ read line.now }
    ensures line_value { line.now ≡ line.now }
{
    let n = line.len();
    if n <= SHORT_DIGITS {
        return None;
    }
    let end = n - 1;
    if line[end] != LINE_END {
        return None;
    }
    let kind = number(&line[0..SHORT_DIGITS])?;
    let form = form_of(kind);
    let front = form.front;
    if end < front {
        return None;
    }
    if !payload_fits(form.payload, end - front) {
        return None;
    }
    if !digits_only(&line[front..end]) {
        return None;
    }
    let values = read_numbers(line, &form)?;
    command_of(kind, values)
}

// The numbers behind the line's own, 0 past them; none where a byte of theirs is no digit.
fn read_numbers(line: &[u8], form: &Form) -> Option<[u32; MOST_NUMBERS]>
    requires { short_digits + count_digits form.now.widths.now ≤ length line.now }
    ensures { Collects form.now.widths.now line.now result }
{
    let mut values = [0; MOST_NUMBERS];
    let mut from = SHORT_DIGITS;
    for (i, width) in form.widths.iter().enumerate() {
        let next = from + *width;
        values[i] = number(&line[from..next])?;
        from = next;
    }
    Some(values)
}
