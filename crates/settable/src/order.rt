// The order of two values of a kind, by their words.
ghost use Rattle.std.specs.Prelude.{◌≡◌};
ghost use Rattle.settable.specs.Order.{at_most};

use kinds::Kind;
use std::num::{f32_from_bits_with_nan, f64_from_bits_with_nan};
use words::DoubleWord;

// Whether the value of word `a` is at most that of word `b`.
// Kept: limits are words, and a derived order of Rectangle or Fraction would be another one than theirs.
pub fn at_most(kind: Kind, a: u64, b: u64) -> bool
    ensures { result ≡ at_most kind a b }
{
    let x = DoubleWord::from(a);
    let y = DoubleWord::from(b);
    match kind {
        Kind::None | Kind::Bool | Kind::Id => a <= b,
        Kind::Int => x.low.cast_signed() <= y.low.cast_signed(),
        Kind::Long | Kind::Fd => a.cast_signed() <= b.cast_signed(),
        Kind::Float => f32_from_bits_with_nan(x.low) <= f32_from_bits_with_nan(y.low),
        Kind::Double => f64_from_bits_with_nan(a) <= f64_from_bits_with_nan(b),
        Kind::Rectangle => x.low <= y.low && x.high <= y.high,
        Kind::Fraction => u64::from(x.low) * u64::from(y.high)
            <= u64::from(y.low) * u64::from(x.high),
    }
}
