// Text lines by number: the form of each, the command of its values, and a command's number and values.
#![tactic(auto)]

ghost use Rattle.std.specs.Prelude.{◌≡◌};
ghost use Rattle.rules.specs.Lines.{command_of, form_numbered, line_number};
ghost use Rattle.forms.specs.Cases.{of_command, of_reading};
ghost use Rattle.forms.specs.Forms.{Formed, HasForm, HasValues};
ghost use Rattle.forms.specs.Small.{Small};

mod form; // form.rt: the struct

use digits::{SHORT_DIGITS, SLOT_DIGITS, WIDE_DIGITS};
pub use form::Form;
use sorts::{Class, Slot, Weight};

// A command, one for each line number.
#[derive(Clone, Copy, Debug, PartialEq, Eq)]
pub enum Command {
    Open(Slot),
    Take(Slot, Weight),
    Send,
    Seal,
    Classed(Slot, Weight, Class),
}

// The most numbers that a line has behind its own.
pub const MOST_NUMBERS: usize = 3;

// The form of a line number; a number that no line has would stand alone, and makes no command.
#[tactic(auto, unfolding(rules::specs::Lines::forms, rules::specs::Lines::found, rules::specs::Lines::count_digits, rules::specs::Lines::front_size))]
pub fn form_of(number: u32) -> Form
    ensures { HasForm (form_numbered number) result }
{
    match number {
        0 => formed(&[SLOT_DIGITS], SHORT_DIGITS + SLOT_DIGITS, false),
        1 => formed(
            &[SLOT_DIGITS, WIDE_DIGITS],
            SHORT_DIGITS + SLOT_DIGITS + WIDE_DIGITS,
            true,
        ),
        2 => formed(&[], SHORT_DIGITS, false),
        3 => formed(&[], SHORT_DIGITS, false),
        4 => formed(
            &[SLOT_DIGITS, WIDE_DIGITS, SHORT_DIGITS],
            SHORT_DIGITS + SLOT_DIGITS + WIDE_DIGITS + SHORT_DIGITS,
            true,
        ),
        _ => formed(&[], SHORT_DIGITS, false),
    }
}

// A form from its parts, so that the table above has a line for each.
fn formed(widths: &'static [usize], front: usize, payload: bool) -> Form
    requires { Small widths.now }
    ensures { Formed widths.now front payload result }
{
    Form {
        widths,
        front,
        payload,
    }
}

// The command of a line number and its values; none is refusal 1.
// Kept: no TryFrom here and no From below, since neither the number nor the values alone are the command.
#[tactic(auto, unfolding(rules::specs::Lines::command_of))]
pub fn command_of(number: u32, values: [u32; MOST_NUMBERS]) -> Option<Command>
    ensures { of_reading result ≡ command_of number values }
{
    match number {
        0 => Some(Command::Open(Slot(values[0]))),
        1 => Some(Command::Take(Slot(values[0]), Weight(values[1]))),
        2 => Some(Command::Send),
        3 => Some(Command::Seal),
        4 => Some(Command::Classed(Slot(values[0]), Weight(values[1]), Class(values[2]))),
        _ => None,
    }
}

#[tactic(auto, unfolding(rules::specs::Lines::line_number))]
pub fn line_number(command: Command) -> u32
    ensures { result ≡ line_number (of_command command) }
{
    match command {
        Command::Open(_) => 0,
        Command::Take(_, _) => 1,
        Command::Send => 2,
        Command::Seal => 3,
        Command::Classed(_, _, _) => 4,
    }
}

// A command's values, and 0 for those that its line does not have.
#[tactic(auto, unfolding(rules::specs::Lines::values_of))]
pub fn values_of(command: Command) -> [u32; MOST_NUMBERS]
    ensures { HasValues (of_command command) result }
{
    match command {
        Command::Open(last) => [last.0, 0, 0],
        Command::Take(due, weight) => [due.0, weight.0, 0],
        Command::Send => [0, 0, 0],
        Command::Seal => [0, 0, 0],
        Command::Classed(due, weight, class) => [due.0, weight.0, class.0],
    }
}
