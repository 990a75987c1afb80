// Writing at the end of a page.
ghost use Rattle.std.specs.Prelude.{◌≡◌, ◌<◌, ◌≤◌, [], ◌∷◌, length, take, IfOk, decimal as decimal_of};
ghost use Rattle.cuevalues.specs.Hex.{digit_of, digits_of};
ghost use Rattle.cuevalues.specs.Parts.{bits_of, said, said_part};
ghost use Rattle.cuevalues.specs.Pages.{Laid, text_of};

use super::{Full, Page, ROOM};
use crate::part::Part;
use itoa::Buffer;
use std::alloc::{AllocError, Global};

// The digit that stands for a number below 16.
fn digit(value: u8) -> u8
    requires { value < 16 }
    ensures { result ≡ digit_of value }
{
    if value < 10 {
        b'0' + value
    } else {
        b'a' - 10 + value
    }
}

impl Page {
    pub fn new(heap: Global) -> Result<Self, AllocError>
        ensures { IfOk result (λ p. text_of p ≡ []) }
    {
        let text = Vec::with_capacity(heap, ROOM)?;
        Ok(Page { text })
    }

    // What is written.
    pub fn text(&self) -> &[u8]
        ensures { result.now ≡ text_of self.now }
    {
        self.text.as_slice()
    }

    // How many bytes are written.
    pub fn len(&self) -> usize
        ensures { result ≡ length (text_of self.now) }
    {
        self.text.len()
    }

    // Keeps the first `n` bytes.
    pub fn truncate(&mut self, n: usize)
        ensures { text_of self.new ≡ take n (text_of self.old) }
    {
        self.text.truncate(n);
    }

    // Writes some bytes.
    // Kept: no `impl fmt::Write`, whose contract lets any write fail, while these say exactly which bytes do not fit.
    fn words(&mut self, words: &[u8]) -> Result<(), Full>
        ensures { Laid (text_of self.old) words.now result (text_of self.new) }
    {
        if words.len() > ROOM - self.text.len() {
            return Err(Full);
        }
        self.text.extend_from_slice(words).unwrap();
        Ok(())
    }

    fn decimal(&mut self, n: u64) -> Result<(), Full>
        ensures { Laid (text_of self.old) (decimal_of n) result (text_of self.new) }
    {
        self.words(Buffer::new().format(n).as_bytes())
    }

    // The last `count` hexadecimal digits of a number.
    // Kept: for these and those of `hex`, `{:x}` and `hex::encode_to_slice` write into something else first, and can fail by their contracts.
    fn bits(&mut self, count: u32, n: u64) -> Result<(), Full>
        ensures { Laid (text_of self.old) (bits_of count n) result (text_of self.new) }
    {
        if count == 0 {
            return Ok(());
        }
        self.bits(count - 1, n / 16)?;
        self.words(&[digit((n % 16) as u8)])
    }

    // Two digits for each byte.
    fn hex(&mut self, bytes: &[u8]) -> Result<(), Full>
        ensures { Laid (text_of self.old) (digits_of bytes.now) result (text_of self.new) }
    {
        for byte in bytes {
            self.words(&[digit(*byte / 16), digit(*byte % 16)])?;
        }
        Ok(())
    }

    fn minus(&mut self, n: u64) -> Result<(), Full>
        ensures { Laid (text_of self.old) (45 ∷ decimal_of n) result (text_of self.new) }
    {
        self.words(b"-")?;
        self.decimal(n)
    }

    fn pair(&mut self, first: u64, between: u8, second: u64) -> Result<(), Full>
        ensures { Laid (text_of self.old) (said_part (Part.Pair first between second)) result (text_of self.new) }
    {
        self.decimal(first)?;
        self.words(&[between])?;
        self.decimal(second)
    }

    fn lay(&mut self, part: Part<'_>) -> Result<(), Full>
        ensures { Laid (text_of self.old) (said_part part.entry) result (text_of self.new) }
    {
        match part {
            Part::Words(words) => self.words(words.as_bytes()),
            Part::Decimal(n) => self.decimal(n),
            Part::Minus(n) => self.minus(n),
            Part::Pair(first, between, second) => self.pair(first, between, second),
            Part::Bits(count, n) => self.bits(count, n),
            Part::Hex(bytes) => self.hex(bytes),
        }
    }

    // Writes the parts, or says that they do not fit; some of them may then be written.
    pub fn lay_all(&mut self, parts: &[Part<'_>]) -> Result<(), Full>
        ensures { Laid (text_of self.old) (said parts.now) result (text_of self.new) }
    {
        for part in parts {
            self.lay(*part)?;
        }
        Ok(())
    }
}
