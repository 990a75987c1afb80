// The held cue.
ghost use Rattle.std.specs.Prelude.{◌≡◌, ℕ, Some};
ghost use Rattle.cue.specs.Rows.{Stands};

use pods::Row;

// A cue over lent bytes and a lent table. While it is open, its first rows stand, and are the survey's rows of the bytes.
#[derive(Drop)]
pub struct Cue<'a> {
    pub(crate) bytes: &'a mut [u8],
    pub(crate) rows: &'a mut [Row],
    // how many rows stand, or none of a shut cue
    pub(crate) standing: Option<usize>,
    ghost stands: { (n : ℕ) → standing ≡ Some n → Stands bytes.now rows.now n },
}
