// An open cue.
ghost use Rattle.std.specs.Prelude.{◌≡◌, true};
ghost use Rattle.histories.specs.Cues.{accepts, rows_of};
ghost use Rattle.cue.specs.Pods.{Found};

use crate::pod::Pod;
use pods::Row;
use refusals::Why;

// The bytes of an open cue, and the rows that stand.
#[derive(Clone, Copy)]
pub struct Opened<'b> {
    pub bytes: &'b [u8],
    pub rows: &'b [Row],
    ghost whole: { accepts bytes.now ≡ true },
    ghost stands: { rows.now ≡ rows_of bytes.now },
}

impl<'b> Opened<'b> {
    // The pod of a row.
    pub fn pod(self, row: usize) -> Result<Pod<'b>, Why>
        ensures { Found self.entry.bytes.now row result }
    {
        let row = self.rows.get(row).ok_or(Why::NoRow)?;
        Ok(Pod {
            bytes: self.bytes,
            row: *row,
        })
    }
}
