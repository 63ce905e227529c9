// Bytes that are zero: checked, and written.
#![tactic(auto)]

ghost use Rattle.std.specs.Prelude.{◌≡◌, ◌++◌, ◌+◌, ◌*◌, ◌-◌, ◌%◌, ◌≤◌, length, take, drop, replicate};
ghost use Rattle.rules.specs.Limits.{row_size};
ghost use Rattle.rules.specs.Conditions.{◌⟺◌};
ghost use Rattle.theory.specs.Judge.{zeros};
ghost use Rattle.theory.specs.Fields.{Zeros};
ghost use Rattle.zeros.specs.Zeros.{zero_part};

use numbers::read8;
use sorts::Round;

// Whether all bytes from a place on are zero; whole rows follow it, four of them a turn while they last.
pub fn zeros_from(table: &[u8], from: usize) -> bool
    requires { (from ≤ length table.now) × ((length table.now - from) % row_size ≡ 0) }
    ensures { result ≡ zeros (drop from table.now) }
{
    // Kept: the walk has two strides; as exact chunks, the rest would cost a division, and one instruction more a row.
    let mut at = from;
    while 4 * Round::ROW_SIZE <= table.len() - at {
        if !four_are_zero(table, at) {
            return false;
        }
        at += 4 * Round::ROW_SIZE;
    }
    while at < table.len() {
        if !row_is_zero(table, at) {
            return false;
        }
        at += Round::ROW_SIZE;
    }
    true
}

fn four_are_zero(table: &[u8], at: usize) -> bool
    requires { at + 4 * row_size ≤ length table.now }
    ensures { result ≡ zero_part at (4 * row_size) table.now }
{
    for row in 0..4 {
        if !row_is_zero(table, at + Round::ROW_SIZE * row) {
            return false;
        }
    }
    true
}

// Three words, and a branch for each.
fn row_is_zero(table: &[u8], at: usize) -> bool
    requires { at + row_size ≤ length table.now }
    ensures { result ≡ zero_part at row_size table.now }
{
    if word(table, at) != 0 {
        return false;
    }
    if word(table, at + 8) != 0 {
        return false;
    }
    word(table, at + 16) == 0
}

// Eight bytes gathered into a word, which is 0 exactly when all eight are.
fn word(table: &[u8], at: usize) -> u64
    requires { at + 8 ≤ length table.now }
    ensures { (result ≡ 0) ⟺ Zeros at (at + 8) table.now }
{
    read8(table, at)
}

// Every byte from a place on becomes zero.
pub fn clear(table: &mut [u8], from: usize)
    requires { from ≤ length table.old }
    ensures { table.new ≡ take from table.old ++ replicate (length table.old - from) 0 }
{
    table[from..].fill(0);
}
