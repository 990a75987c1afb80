// A pod of an open cue.
ghost use Rattle.cue.specs.Rows.{Sound};

use pods::Row;

// The bytes of the cue, and the pod's row.
#[derive(Clone, Copy)]
pub struct Pod<'b> {
    pub bytes: &'b [u8],
    pub row: Row,
    ghost sound: { Sound bytes.now row },
}
