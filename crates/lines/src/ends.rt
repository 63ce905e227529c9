// Where the next line of an input ends.
ghost use Rattle.std.specs.Prelude.{◌≡◌};
ghost use Rattle.lines.specs.Ends.{LineEnds};

use digits::LINE_END;

// The first 0A at or after a place, if there is one.
pub fn line_end(input: &[u8], from: usize) -> Option<usize>
    ensures line_ends { LineEnds input.now from result }
    ensures input_value { input.now ≡ input.now }
{
    (from..input.len()).find(|i| input[*i] == LINE_END)
}
