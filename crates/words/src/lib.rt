// Words of 32 and 64 bits, and padding at the front of some bytes.
#![tactic(auto)]

ghost use Rattle.std.specs.Prelude.{◌≡◌, ◌<◌, ◌≤◌, length, MatchOption};
ghost use Rattle.words.specs.Words.{Halves, little, padded as padded_of};

mod double_word;

pub use double_word::DoubleWord;

// Two words of 32 bits, and the bytes after them.
#[derive(Clone, Copy)]
pub struct Pair<'a> {
    pub first: u32,
    pub second: u32,
    pub rest: &'a [u8],
}

// The word of four bytes, the least significant first.
fn word(bytes: [u8; 4]) -> u32
    ensures { result ≡ little 4 0 bytes }
{
    u32::from_le_bytes(bytes)
}

// The two words at the front of `input`, or nothing where fewer than eight bytes are there.
// Kept: a rule of the project, that a header is taken by one pattern which names its eight bytes.
pub fn two_words(input: &[u8]) -> Option<Pair<'_>>
    ensures { MatchOption result (length input.now < 8) (λ p. Halves input.now p.first p.second p.rest.now) }
{
    let [a, b, c, d, e, f, g, h, rest @ ..] = input else {
        return None;
    };
    Some(Pair {
        first: word([*a, *b, *c, *d]),
        second: word([*e, *f, *g, *h]),
        rest,
    })
}

// How many bytes `n` bytes at the front of `input` take with their padding, or nothing where not all are there.
pub fn padded(input: &[u8], n: usize) -> Option<usize>
    ensures { MatchOption result (length input.now < padded_of n) (λ u. (u ≡ padded_of n) × (u ≤ length input.now)) }
{
    let fill = (8 - n % 8) % 8;
    if input.len() < n || input.len() - n < fill {
        return None;
    }
    Some(n + fill)
}
