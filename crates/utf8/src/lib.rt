// Text by Table 3-7 of the Unicode Standard, well-formed UTF-8 byte sequences.
#![tactic(auto)]

ghost use Rattle.std.specs.Prelude.{◌≡◌, ◌<◌, ◌≤◌, false, [], ◌∷◌, length, replicate, IfSome, IsUtf8, Decides, MatchOption, bit_and};
ghost use Rattle.utf8.specs.Reading.{Takes, class_of, due_after, highs};
ghost use Rattle.utf8.specs.Table37.{find, span as due, table, tail, well_formed, within};

use lead::followers;

mod lead;

// The first and the last of the bytes that may stand at one place.
// Kept: a `RangeInclusive` may be used up, so `second` and `after_byte` would each need one more clause, that it is not.
#[derive(Clone, Copy)]
struct Bounds {
    low: u8,
    high: u8,
}

impl Bounds {
    // Whether `b` may stand there.
    fn has(self, b: u8) -> bool
        ensures { result ≡ within (due self.low self.high) b }
    {
        (self.low..=self.high).contains(&b)
    }
}

const TAIL: Bounds = Bounds {
    low: 0x80,
    high: 0xbf,
};

// The bytes that may follow a lead byte; those after them are tails.
fn second(lead: u8) -> Bounds
    ensures { find table lead ≡ due_after (class_of lead) result.low result.high }
{
    match lead {
        0xe0 => Bounds {
            low: 0xa0,
            high: 0xbf,
        },
        0xed => Bounds {
            low: 0x80,
            high: 0x9f,
        },
        0xf0 => Bounds {
            low: 0x90,
            high: 0xbf,
        },
        0xf4 => Bounds {
            low: 0x80,
            high: 0x8f,
        },
        _ => TAIL,
    }
}

// What is left of `text` after its first byte; nothing where that is out of bounds or missing.
fn after_byte(bounds: Bounds, text: &[u8]) -> Option<&[u8]>
    ensures { Takes (due bounds.low bounds.high ∷ []) text.now result }
{
    let (b, rest) = text.split_first()?;
    bounds.has(*b).then_some(rest)
}

// What is left of `text` after `count` tails; nothing where one is missing.
#[tactic(auto, using(crate::proofs::Steps::next_due))]
fn after_tails(count: u8, text: &[u8]) -> Option<&[u8]>
    ensures { Takes (replicate count tail) text.now result }
{
    let mut rest = text;
    for _ in 0..count {
        rest = after_byte(TAIL, rest)?;
    }
    Some(rest)
}

// What is left after the sequence that `lead` begins and `rest` goes on with; nothing where it is ill-formed.
fn after_sequence(lead: u8, rest: &[u8]) -> Option<&[u8]>
    ensures { MatchOption result (well_formed (lead ∷ rest.now) ≡ false) (λ left. (length left.now ≤ length rest.now) × (well_formed (lead ∷ rest.now) ≡ well_formed left.now)) }
{
    match followers(lead)? {
        0 => Some(rest),
        count => after_tails(count - 1, after_byte(second(lead), rest)?),
    }
}

// The highest bit of each of a word's eight bytes.
fn high_bits(word: u64) -> u64
    ensures { result ≡ bit_and word (highs 8) }
{
    word & 0x8080_8080_8080_8080
}

// What is left after eight bytes, where all of them are ASCII.
#[tactic(auto, using(crate::proofs::Ascii::ascii_eight))]
fn after_word(text: &[u8]) -> Option<&[u8]>
    ensures { IfSome result (λ left. (length left.now < length text.now) × (well_formed text.now ≡ well_formed left.now)) }
{
    let (word, left) = text.split_first_chunk::<8>()?;
    if high_bits(u64::from_le_bytes(*word)) != 0 {
        return None;
    }
    Some(left)
}

// What is left after the ASCII bytes at the front.
// Kept: the first loop goes by words and the second by bytes, as far as they are ASCII; with `take_while` and `count` the second takes a
// sixth more instructions over Cyrillic text.
fn after_ascii(text: &[u8]) -> &[u8]
    ensures { (length result.now ≤ length text.now) × (well_formed text.now ≡ well_formed result.now) }
{
    let mut left = text;
    while let Some(rest) = after_word(left) {
        left = rest;
    }
    while let [b, rest @ ..] = left
        && b.is_ascii()
    {
        left = rest;
    }
    left
}

// Whether `text` is well-formed UTF-8.
#[tactic(auto, unfolding(crate::specs::Table37::formed))]
pub fn check(text: &[u8]) -> bool
    ensures table { result ≡ well_formed text.now }
    ensures text { Decides result (IsUtf8 text.now) }
{
    let mut left = text;
    // Kept: sequences differ in length, so that only `after_sequence` knows where the next one begins.
    loop {
        let Some((lead, rest)) = after_ascii(left).split_first() else {
            return true;
        };
        let Some(next) = after_sequence(*lead, rest) else {
            return false;
        };
        left = next;
    }
}
