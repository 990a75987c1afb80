// Prints the value of each cue of standard input, one line for each.
//
// A line of input has two hexadecimal digits for each byte of a cue; an empty line is the empty cue.
// The answer is one of these; docs/VALUES.md says how a value is written:
//
//     ok USED VALUE                  the cue uses so many bytes, and is this value
//     refused NUMBER PLACE DEPTH     it is refused with that number, at the pod at that place and depth
//     error REASON                   the line is not hex, or the value is too long to be written
#![tactic(auto)]

mod page;
mod part;
mod scribe;

use hex::FromHexError;
use pods::survey;
use scribe::Scribe;
use std::alloc::AllocError;
use std::io::{BufRead, BufReader};
use tours::tour_bytes;

// Prints the value of a cue, or why there is none.
fn show(rt: &HostRuntime, bytes: &[u8]) -> anyhow::Result<()> {
    let heap = rt.alloc();
    let used = match survey(bytes) {
        Ok(found) => found.used,
        Err(refusal) => {
            println!(rt; "{refusal}")?;
            return Ok(());
        }
    };
    let mut scribe = Scribe::new(heap)?;
    match tour_bytes(bytes, &mut scribe) {
        Ok(_) => {
            let text = String::from_utf8_lossy(heap, scribe.text())?;
            println!(rt; "ok {used} {text}")?;
        }
        Err(_) => println!(rt; "error too long to be written")?,
    }
    Ok(())
}

// Answers each line.
fn run(rt: &HostRuntime) -> anyhow::Result<()> {
    let heap = rt.alloc();
    for line in BufReader::new(heap, rt.stdin())?.split(heap, b'\n') {
        match hex::decode(heap, line?) {
            Ok(bytes) => show(rt, &bytes)?,
            Err(FromHexError::OutOfMemory) => return Err(AllocError.into()),
            Err(_) => println!(rt; "error not hex")?,
        }
    }
    Ok(())
}

fn main(rt: HostRuntime) -> anyhow::Result<()> {
    run(&rt)
}
