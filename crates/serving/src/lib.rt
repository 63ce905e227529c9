// What the program does between a read and a write, on lent buffers: one read served.
#![tactic(auto)]

ghost use Rattle.std.specs.Prelude.{◌≡◌};
ghost use Rattle.rules.specs.Lines.{fresh_table};

mod serving; // serving.rt: one read

pub use serving::serve_in_room;

// After one read: the bytes to write, and the bytes held at the input's front for the next; none where nothing more is to be read.
#[derive(Clone, Copy)]
pub struct Served {
    pub wrote: usize,
    pub held: Option<usize>,
}

// A command's longest line: its number, a due slot, a weight, a class, a payload and the 0A.
pub const LONGEST_LINE: usize = 65;

// A head and 1,024 rows.
pub const TABLE_SIZE: usize = 24592;

pub fn fresh_table() -> [u8; TABLE_SIZE]
    ensures { result ≡ fresh_table }
{
    [0; TABLE_SIZE]
}
