// A table of rows, and the rows of a cue in it.
ghost use Rattle.std.specs.Prelude.{◌≡◌, length};
ghost use Rattle.pods.specs.Survey.{says};
ghost use Rattle.tours.specs.Checks.{checked_by};
ghost use Rattle.tours.specs.Filled.{filled_by};

use crate::byte_tour::tour_bytes;
use crate::value_visitor::ValueVisitor;
use pods::{Row, Surveyed, survey};
use refusals::{Refusal, Spot, Why};

// The rows and bytes of the cue at the front of `bytes`: the survey's refusal, or a refusal of more rows than the table has.
pub fn check(bytes: &[u8], rows: &[Row]) -> Result<Surveyed, Refusal>
    ensures { result ≡ checked_by (says bytes.now) (length rows.now) }
{
    let found = survey(bytes)?;
    if found.rows > rows.len() {
        return Err(Spot::OUTERMOST.refuse(Why::TooManyRows));
    }
    Ok(found)
}

// The rows of the cue at the front of `bytes`, one for each pod, at the front of the table; a refusal leaves the table as it was.
pub fn fill(bytes: &[u8], rows: &mut [Row]) -> Result<Surveyed, Refusal>
    ensures answer { result ≡ (filled_by (says bytes.now) rows.old).0 }
    ensures table { rows.new ≡ (filled_by (says bytes.now) rows.old).1 }
{
    let found = check(bytes, rows)?;
    let mut visitor = ValueVisitor::new(rows);
    let _ = tour_bytes(bytes, &mut visitor);
    Ok(found)
}
