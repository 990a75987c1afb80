// The lines that are printed of a cue.
#![tactic(auto)]

ghost use Rattle.std.specs.Prelude.{◌≡◌, ◌≤◌, ◌++◌, length, IfOk, string_bytes};
ghost use Rattle.listing.specs.Listing.{end_line, listing_of, refused_line, row_line, row_lines};

use pods::Row;
use refusals::Refusal;
use std::alloc::{AllocError, Global};
use tours::fill;

// One row: its number, place, kind, total, key and word.
fn row_line(heap: Global, i: usize, row: &Row) -> Result<String, AllocError>
    ensures { IfOk result (λ s. string_bytes s ≡ row_line i row.now) }
{
    let Row {
        place,
        total,
        kind,
        key,
        word,
        ..
    } = *row;
    format!(in heap; "{i} {place} {kind} {total} {key} {word}\n")
}

fn end_line(heap: Global, used: usize) -> Result<String, AllocError>
    ensures { IfOk result (λ s. string_bytes s ≡ end_line used) }
{
    format!(in heap; "end {used}\n")
}

#[tactic(auto, using(crate::proofs::Lines::refused_written))]
fn refused_line(heap: Global, refusal: Refusal) -> Result<String, AllocError>
    ensures { IfOk result (λ s. string_bytes s ≡ refused_line refusal) }
{
    format!(in heap; "{refusal}\n")
}

// A line for each row.
fn row_lines(heap: Global, rows: &[Row]) -> Result<String, AllocError>
    ensures { IfOk result (λ s. string_bytes s ≡ row_lines 0 rows.now) }
{
    let mut all = String::new(heap);
    for (i, row) in rows.iter().enumerate() {
        let line = row_line(heap, i, row)?;
        all.push_str(&line)?;
    }
    Ok(all)
}

// A line for each row of the cue at the front of `bytes`, and then the bytes that it uses; or why and where it is refused.
pub fn listing(heap: Global, bytes: &[u8]) -> Result<String, AllocError>
    ensures { IfOk result (λ s. string_bytes s ≡ listing_of bytes.now) }
{
    // Kept: 512 rows is the rule of the program, and an array cannot run out of memory.
    let mut rows = [Row::default(); 512];
    match fill(bytes, &mut rows) {
        Ok(found) => {
            let count = found.rows.min(512);
            let mut all = row_lines(heap, &rows[0..count])?;
            let last = end_line(heap, found.used)?;
            all.push_str(&last)?;
            Ok(all)
        }
        Err(refusal) => refused_line(heap, refusal),
    }
}

#[cfg(test)]
mod tests;
