// Numbers in bytes, low byte first: read and written.
#![tactic(auto)]

ghost use Rattle.std.specs.Prelude.{◌≡◌, ◌+◌, ◌≤◌, length};
ghost use Rattle.std.proofs.lemmas.List.Edits.{sets};
ghost use Rattle.rules.specs.Table.{low, field};

// A number of N bytes.
pub fn read<const N: usize>(bytes: &[u8], at: usize) -> u32
    requires { (N ≤ 4) × (at + N ≤ length bytes.now) }
    ensures { result ≡ field at N bytes.now }
{
    let mut word = [0; 4];
    word[..N].copy_from_slice(&bytes[at..at + N]);
    u32::from_le_bytes(word)
}

// Kept: eight bytes do not fit the u32 that the other widths answer, and a copy of eight compiles to more than this one load.
pub fn read8(bytes: &[u8], at: usize) -> u64
    requires { at + 8 ≤ length bytes.now }
    ensures { result ≡ field at 8 bytes.now }
{
    u64::from_le_bytes([
        bytes[at],
        bytes[at + 1],
        bytes[at + 2],
        bytes[at + 3],
        bytes[at + 4],
        bytes[at + 5],
        bytes[at + 6],
        bytes[at + 7],
    ])
}

// The lowest N bytes of a number.
pub fn write<const N: usize>(bytes: &mut [u8], at: usize, value: u32)
    requires { (N ≤ 4) × (at + N ≤ length bytes.old) }
    ensures { bytes.new ≡ sets bytes.old at (low N value) }
{
    bytes[at..at + N].copy_from_slice(&value.to_le_bytes()[..N]);
}
