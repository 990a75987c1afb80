// The kinds as types of values.
ghost use Rattle.std.specs.Prelude.{◌≡◌, ℕ, ◌/◌, ◌%◌, ◌^◌, not, ◌==◌, from_bits};
ghost use Rattle.std.specs.Float.{binary32, binary64};
ghost use Rattle.std.specs.Int.{w32, w64};
ghost use Rattle.std.proofs.Common.{to_z};
ghost use Rattle.kinds.specs.declared.kind.Kind.{Kind as Sort};
ghost use Rattle.kinds.specs.declared.kind.Kind.TheVariants.{None as NoneKind, Bool as BoolKind, Id as IdKind, Int as IntKind, Long as LongKind, Float as FloatKind, Double as DoubleKind, Rectangle as RectangleKind, Fraction as FractionKind, Fd as FdKind};
ghost use Rattle.kinds.specs.Kinds.{size_of, type_of};
ghost use Rattle.kinds.specs.Bodies.{body_read};

use crate::kind::Kind;
use crate::numbers::{number32, number64};
use crate::utils::{Fd, Fraction, Id, Rectangle};
use refusals::Why;
use std::num::{f32_from_bits_with_nan, f64_from_bits_with_nan};
use words::DoubleWord;

// A type of values that one of the ten kinds has; `means` is the value that a word means.
pub trait CanonicalFixedSizedPod: Sized {
    ghost kind: { Sort };

    ghost means: { ℕ → Self };

    fn kind() -> Kind
        ensures { result ≡ kind };

    // The type number of its pods.
    // Kept: a type of values has no value to convert, so that this and `size` are functions.
    fn type_number() -> u32
        ensures { result ≡ type_of kind }
    {
        u32::from(Self::kind())
    }

    // How many bytes a body has, without padding.
    fn size() -> usize
        ensures { result ≡ size_of kind }
    {
        Self::kind().size()
    }

    // The value at the front of `body`, which may go on after it.
    fn deserialize_body(body: &[u8]) -> Result<Self, Why>
        ensures { result ≡ body_read kind means body.now };
}

impl CanonicalFixedSizedPod for () {
    ghost kind = { NoneKind };

    ghost means = { λ _. tt };

    fn kind() -> Kind {
        Kind::None
    }

    fn deserialize_body(_body: &[u8]) -> Result<(), Why> {
        Ok(())
    }
}

impl CanonicalFixedSizedPod for bool {
    ghost kind = { BoolKind };

    ghost means = { λ w. not (w == 0) };

    fn kind() -> Kind {
        Kind::Bool
    }

    fn deserialize_body(body: &[u8]) -> Result<bool, Why> {
        let number = number32(body)?;
        Ok(number != 0)
    }
}

impl CanonicalFixedSizedPod for Id {
    ghost kind = { IdKind };

    ghost means = { λ w. record { 0 = w } };

    fn kind() -> Kind {
        Kind::Id
    }

    fn deserialize_body(body: &[u8]) -> Result<Id, Why> {
        let number = number32(body)?;
        Ok(Id(number))
    }
}

impl CanonicalFixedSizedPod for i32 {
    ghost kind = { IntKind };

    ghost means = { to_z w32 };

    fn kind() -> Kind {
        Kind::Int
    }

    fn deserialize_body(body: &[u8]) -> Result<i32, Why> {
        let number = number32(body)?;
        Ok(number.cast_signed())
    }
}

impl CanonicalFixedSizedPod for i64 {
    ghost kind = { LongKind };

    ghost means = { to_z w64 };

    fn kind() -> Kind {
        Kind::Long
    }

    fn deserialize_body(body: &[u8]) -> Result<i64, Why> {
        let number = number64(body)?;
        Ok(number.cast_signed())
    }
}

impl CanonicalFixedSizedPod for f32 {
    ghost kind = { FloatKind };

    ghost means = { from_bits binary32 };

    fn kind() -> Kind {
        Kind::Float
    }

    fn deserialize_body(body: &[u8]) -> Result<f32, Why> {
        let number = number32(body)?;
        Ok(f32_from_bits_with_nan(number))
    }
}

impl CanonicalFixedSizedPod for f64 {
    ghost kind = { DoubleKind };

    ghost means = { from_bits binary64 };

    fn kind() -> Kind {
        Kind::Double
    }

    fn deserialize_body(body: &[u8]) -> Result<f64, Why> {
        let number = number64(body)?;
        Ok(f64_from_bits_with_nan(number))
    }
}

impl CanonicalFixedSizedPod for Rectangle {
    ghost kind = { RectangleKind };

    ghost means = { λ w. record { width = w % 2 ^ 32; height = w / 2 ^ 32 } };

    fn kind() -> Kind {
        Kind::Rectangle
    }

    fn deserialize_body(body: &[u8]) -> Result<Rectangle, Why> {
        let pair = DoubleWord::from(number64(body)?);
        Ok(Rectangle {
            width: pair.low,
            height: pair.high,
        })
    }
}

impl CanonicalFixedSizedPod for Fraction {
    ghost kind = { FractionKind };

    ghost means = { λ w. record { num = w % 2 ^ 32; denom = w / 2 ^ 32 } };

    fn kind() -> Kind {
        Kind::Fraction
    }

    fn deserialize_body(body: &[u8]) -> Result<Fraction, Why> {
        let pair = DoubleWord::from(number64(body)?);
        Ok(Fraction {
            num: pair.low,
            denom: pair.high,
        })
    }
}

impl CanonicalFixedSizedPod for Fd {
    ghost kind = { FdKind };

    ghost means = { λ w. record { 0 = to_z w64 w } };

    fn kind() -> Kind {
        Kind::Fd
    }

    fn deserialize_body(body: &[u8]) -> Result<Fd, Why> {
        let number = number64(body)?;
        Ok(Fd(number.cast_signed()))
    }
}
