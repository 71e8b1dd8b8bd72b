// Little-endian numbers of N bytes, read and stored at a place of a run of bytes.
//
// What a number is stands in specs/Number.antt, once for every width.
#![tactic(auto)]

ghost use Rattle.std.specs.Prelude.{◌≡◌, ◌+◌, ◌≤◌, length};
ghost use Rattle.le.specs.Number.{Reads, stored};

// The number in the N bytes at a place.
pub fn read<const N: usize>(s: &[u8], at: usize) -> u64
    requires narrow { N ≤ 8 }
    requires inside { at + N ≤ length s.now }
    ensures { Reads N at s.now result }
{
    let mut eight = [0; 8];
    eight[..N].copy_from_slice(&s[at..at + N]);
    u64::from_le_bytes(eight)
}

// Stores the low N bytes of v at a place.
pub fn store<const N: usize>(s: &mut [u8], at: usize, v: u64)
    requires narrow { N ≤ 8 }
    requires inside { at + N ≤ length s.old }
    ensures { s.new ≡ stored N at v s.old }
{
    s[at..at + N].copy_from_slice(&v.to_le_bytes()[..N]);
}
