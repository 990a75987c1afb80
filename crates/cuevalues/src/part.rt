// The parts that a written thing is made of.
ghost use Rattle.std.specs.Prelude.{◌≡◌};
ghost use Rattle.cuevalues.specs.Parts.{said_part};
ghost use Rattle.cuevalues.specs.Values.{int_of, long_of, name_of, value_of};

use kinds::Kind;
use words::DoubleWord;

#[derive(Clone, Copy)]
pub enum Part<'a> {
    Words(&'a str),
    Decimal(u64),
    // with a minus sign
    Minus(u64),
    // two numbers and the byte between them
    Pair(u64, u8, u64),
    // so many hexadecimal digits of a number
    Bits(u32, u64),
    // two hexadecimal digits for each byte
    Hex(&'a [u8]),
}

// The name of a kind.
pub fn name<'a>(kind: u32) -> Part<'a>
    ensures { said_part result ≡ name_of kind }
{
    Part::Words(match Kind::try_from(kind) {
        Ok(Kind::None) => "none",
        Ok(Kind::Bool) => "bool",
        Ok(Kind::Id) => "id",
        Ok(Kind::Int) => "int",
        Ok(Kind::Long) => "long",
        Ok(Kind::Float) => "float",
        Ok(Kind::Double) => "double",
        Ok(Kind::Rectangle) => "rectangle",
        Ok(Kind::Fraction) => "fraction",
        Ok(Kind::Fd) => "fd",
        Err(_) => "unknown",
    })
}

// A word as a value of a kind.
pub fn value<'a>(kind: u32, word: u64) -> Part<'a>
    ensures { said_part result ≡ value_of kind word }
{
    let DoubleWord { low, high } = DoubleWord::from(word);
    match Kind::try_from(kind) {
        Ok(Kind::Int) => int(word),
        Ok(Kind::Long | Kind::Fd) => long(word),
        Ok(Kind::Float) => Part::Bits(8, word),
        Ok(Kind::Double) => Part::Bits(16, word),
        Ok(Kind::Rectangle) => Part::Pair(u64::from(low), b'x', u64::from(high)),
        Ok(Kind::Fraction) => Part::Pair(u64::from(low), b'/', u64::from(high)),
        _ => Part::Decimal(word),
    }
}

// The signed number that 32 bits stand for.
// Kept: a word may be longer than 32 bits, and the definition says how it is then written, which a cast would not.
fn int<'a>(word: u64) -> Part<'a>
    ensures { said_part result ≡ int_of word }
{
    if word < 1 << 31 {
        Part::Decimal(word)
    } else {
        Part::Minus((1u64 << 32).saturating_sub(word))
    }
}

// The signed number that 64 bits stand for.
fn long<'a>(word: u64) -> Part<'a>
    ensures { said_part result ≡ long_of word }
{
    let number = word.cast_signed();
    if number < 0 {
        Part::Minus(number.unsigned_abs())
    } else {
        Part::Decimal(word)
    }
}
