// Rows moved down in runs, over the places of rows that left.
#![tactic(auto)]

ghost use Rattle.std.specs.Prelude.{◌≡◌, ◌*◌, ◌-◌, ◌≤◌, length, drop};
ghost use Rattle.std.proofs.Math.Seq.{paste};
ghost use Rattle.rules.specs.Limits.{row_size, most_rows};
ghost use Rattle.rules.specs.Conditions.{row_at};

use row::row_at;

// A run of rows, from one up to another, moved down behind those kept.
pub fn move_run(table: &mut [u8], from: usize, to: usize, kept: usize)
    requires { (kept ≤ from) × (from ≤ to) × (to ≤ most_rows) × (row_at to ≤ length table.old) }
    ensures { table.new ≡ paste table.old (row_at kept) (drop (row_at from) table.old) (row_size * (to - from)) }
{
    table.copy_within(row_at(from)..row_at(to), row_at(kept));
}
