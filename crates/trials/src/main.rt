// Tries each line of standard input, and compares the answer found with the one that the line expects.
//
// A line is one of these, where HEX has two digits for each byte, and is `-` where there are no bytes:
//
//     survey HEX = rows R used U     the cue at the front of the bytes has R rows, and uses U bytes
//     survey HEX = refused N P D     it is refused with number N, at the pod at place P and depth D
//     text HEX = yes                 the bytes are well-formed UTF-8
//     text HEX = no                  they are not
//
// Digits are 0 to 9 and a to f, and other numbers are decimal.
// Empty lines and lines that begin with `#` are passed over.
// Where the answer differs, or the line is none of these, its number, the line and the answer found are printed.
// The last line printed says how many lines were tried, and how many differ.
#![tactic(auto)]

mod trial;

use std::io::{BufRead, BufReader};
use trial::{Untried, try_line};

// Tries all lines.
fn run(rt: &HostRuntime) -> anyhow::Result<()> {
    let heap = rt.alloc();
    let mut tried = 0u64;
    let mut differ = 0u64;
    for (line, number) in BufReader::new(heap, rt.stdin())?
        .split(heap, b'\n')
        .zip(1u64..)
    {
        // In a line that is no text the bad bytes are replaced, so that it is not read.
        let text = String::from_utf8_lossy(heap, &line?)?;
        let line = text.trim_end();
        if line.is_empty() || line.starts_with('#') {
            continue;
        }
        tried = tried.saturating_add(1);
        match try_line(heap, line) {
            Ok(None) => continue,
            Ok(Some(answer)) => println!(rt; "{number}: {line}: {answer}")?,
            Err(Untried::Unread) => println!(rt; "{number}: {line}: not read")?,
            Err(Untried::OutOfMemory) => return Err(Untried::OutOfMemory.into()),
        }
        differ = differ.saturating_add(1);
    }
    println!(rt; "{tried} tried, {differ} differ")?;
    Ok(())
}

fn main(rt: HostRuntime) {
    if let Err(e) = run(&rt) {
        let _ = eprintln!(rt; "{e}");
    }
}
