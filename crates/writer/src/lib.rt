// The line writer: a command and its payload digits as a line, in a lent buffer.
#![tactic(auto)]

ghost use Rattle.std.specs.Prelude.{◌≡◌, ◌+◌, ◌≤◌, length};
ghost use Rattle.rules.specs.Limits.{short_digits};
ghost use Rattle.rules.specs.Lines.{count_digits, fit_digits, numerals};
ghost use Rattle.digits.specs.Spelling.{put};
ghost use Rattle.forms.specs.Cases.{of_command};
ghost use Rattle.forms.specs.Forms.{can_stand};
ghost use Rattle.writer.specs.Writing.{Writes};

use digits::{LINE_END, SHORT_DIGITS, digits_only, fits, payload_fits, put_number};
use forms::{Command, Form, MOST_NUMBERS, form_of, line_number, values_of};
use refusals::Refusal;

// The line's length with its 0A. Refusal 1 comes before 12, and a refusal changes no byte.
pub fn write_line(command: Command, payload: &[u8], buffer: &mut [u8]) -> Result<usize, Refusal>
    ensures writes { Writes (of_command command) payload.now buffer.old buffer.new result }
    ensures payload_value { payload.now ≡ payload.now }
{
    let number = line_number(command);
    let form = form_of(number);
    let values = values_of(command);
    if !can_stand(&form, &values, payload) {
        return Err(Refusal::BadLine);
    }
    let front = form.front;
    let end = front + payload.len();
    if buffer.len() <= end {
        return Err(Refusal::NoRoom);
    }
    put_number(number, &mut buffer[0..SHORT_DIGITS]);
    put_values(form.widths, &values[0..form.widths.len()], buffer);
    buffer[front..end].copy_from_slice(payload);
    buffer[end] = LINE_END;
    let n = end + 1;
    Ok(n)
}

fn can_stand(form: &Form, values: &[u32; MOST_NUMBERS], payload: &[u8]) -> bool
    ensures { result ≡ can_stand form.now values.now payload.now }
{
    values_fit(form.widths, &values[0..form.widths.len()])
        && payload_fits(form.payload, payload.len())
        && digits_only(payload)
}

// Whether each value fits its digits.
fn values_fit(widths: &[usize], values: &[u32]) -> bool
    requires { length values.now ≡ length widths.now }
    ensures { result ≡ fit_digits widths.now values.now }
{
    values.iter().zip(widths).all(|(v, n)| fits(*v, *n))
}

// Each value behind the one before, the first behind the line's number.
fn put_values(widths: &[usize], values: &[u32], buffer: &mut [u8])
    requires as_many { length values.now ≡ length widths.now }
    requires room { short_digits + count_digits widths.now ≤ length buffer.old }
    ensures { buffer.new ≡ put short_digits (numerals widths.now values.now) buffer.old }
{
    let mut at = SHORT_DIGITS;
    for (i, width) in widths.iter().enumerate() {
        let next = at + *width;
        put_number(values[i], &mut buffer[at..next]);
        at = next;
    }
}
