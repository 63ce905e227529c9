// Digits 0 to 9 and A to F, numbers in digits, high digit first, how many digits a payload can have, and the byte that ends a line.
#![tactic(auto)]

ghost use Rattle.std.specs.Prelude.{◌≡◌, ◌^◌, ◌≤◌, ◌<◌, ltb, length};
ghost use Rattle.rules.specs.Lines.{all_digits, digit, digits, payload_fits};
ghost use Rattle.digits.specs.Spelling.{spelt, value_of};

// How many digits a line's or a refusal's number, a slot, and a weight or a ticket have.
pub const SHORT_DIGITS: usize = 2;

pub const SLOT_DIGITS: usize = 4;

pub const WIDE_DIGITS: usize = 8;

// The byte that ends a line.
pub const LINE_END: u8 = b'\n';

// A digit's value; none of any other byte.
#[tactic(auto, unfolding(crate::specs::Spelling::value_of, rules::specs::Lines::is_digit, rules::specs::Lines::digit_value))]
fn value(b: u8) -> Option<u32>
    ensures { result ≡ value_of b }
{
    match b {
        b'0'..=b'9' => Some(u32::from(b - b'0')),
        b'A'..=b'F' => Some(10 + u32::from(b - b'A')),
        _ => None,
    }
}

// The number that up to eight digits spell; none where a byte is no digit.
pub fn number(digits: &[u8]) -> Option<u32>
    requires { length digits.now ≤ 8 }
    ensures { result ≡ spelt digits.now }
{
    let mut sum: u32 = 0;
    for b in digits {
        sum = 16 * sum + value(*b)?;
    }
    Some(sum)
}

// Whether every byte is a digit.
pub fn digits_only(bytes: &[u8]) -> bool
    ensures { result ≡ all_digits bytes.now }
{
    bytes.iter().all(|b| value(*b).is_some())
}

const MOST_PAYLOAD: usize = 48;

// Whether there can be so many payload digits in a line that may have a payload, or may not.
#[tactic(auto, unfolding(rules::specs::Lines::payload_fits))]
pub fn payload_fits(may: bool, count: usize) -> bool
    ensures { result ≡ payload_fits may count }
{
    if may {
        count % 2 == 0 && count <= MOST_PAYLOAD
    } else {
        count == 0
    }
}

// Whether so many digits hold a number; eight hold each.
pub fn fits(value: u32, count: usize) -> bool
    ensures { result ≡ ltb value (16 ^ count) }
{
    count >= WIDE_DIGITS || value < 16u32.pow(count as u32)
}

// The digit of a value below 16.
#[tactic(auto, unfolding(rules::specs::Lines::digit))]
fn digit(v: u32) -> u8
    requires { v < 16 }
    ensures { result ≡ digit v }
{
    if v < 10 {
        b'0' + v as u8
    } else {
        b'A' - 10 + v as u8
    }
}

// A number in all digits of a part.
pub fn put_number(value: u32, part: &mut [u8])
    ensures { part.new ≡ digits (length part.old) value }
{
    let mut rest = value;
    for i in (0..part.len()).rev() {
        part[i] = digit(rest % 16);
        rest /= 16;
    }
}
