// Reads a plan from standard input, and writes its listing or the number of its refusal to standard output.
//
// The first 3,418 bytes of an input decide its output, which has at most 17,496 bytes (`crates/promises/specs/Listings.antt`),
// so this buffer and that of `shown::plan` are long enough for every input.
#![tactic(auto)]

use std::io;

fn main(rt: HostRuntime) -> io::Result<()> {
    let mut input = [0u8; 4096];
    let n = shown::read_full(&mut rt.stdin(), &mut input)?;
    shown::plan(&rt, &input[..n])
}
