// A pod of which the header has been read.
ghost use Rattle.std.specs.Prelude.{◌≡◌, ◌+◌, ◌^◌, ◌<◌, ◌≤◌, length};
ghost use Rattle.words.specs.Words.{little};

// Where it stands in the bytes, and the length that its header declares; the header is there.
#[derive(Clone, Copy)]
pub struct Begun<'a> {
    pub bytes: &'a [u8],
    pub at: usize,
    pub len: usize,
    pub ghost short: { length bytes.now ≤ 65536 },
    pub ghost there: { at + 8 ≤ length bytes.now },
    pub ghost declared: { len ≡ little 4 at bytes.now },
    pub ghost word: { len < 2 ^ 32 },
}
