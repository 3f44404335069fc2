// How much of lent memory stayed, for the programs that are held to what they write.
// No function gives an error but that of a write that failed; what it wrote before may stand.
#![tactic(auto)]

ghost use Rattle.std.specs.Prelude.{◌≡◌, ◌==◌, count_by};

use std::io;

// What lent memory holds before a call. No text has such a byte.
pub const OTHER: u8 = 165;

// How many bytes hold what lent memory held.
fn untouched(bytes: &[u8]) -> usize
    ensures { result ≡ count_by (λ b. b == OTHER) bytes.now }
{
    bytes.iter().filter(|b| **b == OTHER).count()
}

pub fn left(rt: &impl Print, bytes: &[u8]) -> io::Result<()> {
    println!(rt; "untouched: {}", untouched(bytes))
}
