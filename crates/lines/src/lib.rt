// Text lines read: a line's command, the payload's part of a line, and where a line ends.
#![tactic(auto)]

mod reader; // reader.rt: a line's command
mod part; // part.rt: a line's payload
mod ends; // ends.rt: where a line ends

pub use ends::line_end;
pub use part::{payload, payload_place};
pub use reader::read_command;

// Where the payload stands in its line.
// Kept: no Range, since Range is not Copy, and a caller may use the place twice.
#[derive(Clone, Copy, Debug, PartialEq, Eq)]
pub struct Place {
    pub start: usize,
    pub end: usize,
}
