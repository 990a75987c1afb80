// Text that grows up to a fixed length.
ghost use Rattle.std.specs.Prelude.{◌≡◌, ◌≤◌, vec_len, vec_capacity};

// The most bytes of a page.
const ROOM: usize = 262_144;

// At most that many bytes, whose memory is there from the start.
#[derive(Drop)]
pub struct Page {
    text: Vec<u8>,
    ghost roomy: { 262144 ≤ vec_capacity text },
    ghost few: { vec_len text ≤ 262144 },
}

// Says that some bytes do not fit on a page.
#[derive(Clone, Copy)]
pub struct Full;

// The number by which a visitor refuses it.
impl From<Full> for u32 {
    ghost from_gives = { λ _ r. r ≡ 1 };

    fn from(_: Full) -> u32 {
        1
    }
}

mod writing;
