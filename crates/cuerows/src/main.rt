// Reads a cue from standard input, and prints its rows and how many bytes it uses, or why and where it is refused.
#![tactic(auto)]

use listing::listing;
use std::io;
use std::io::Read;

// All of the input, up to one byte more than a cue may have.
fn input(rt: &HostRuntime) -> io::Result<Vec<u8>> {
    let mut bytes = Vec::new(rt.alloc());
    rt.stdin().take(65_537).read_to_end(&mut bytes)?;
    Ok(bytes)
}

fn main(rt: HostRuntime) -> anyhow::Result<()> {
    let bytes = input(&rt)?;
    let lines = listing(rt.alloc(), &bytes)?;
    print!(rt; "{lines}")?;
    Ok(())
}
