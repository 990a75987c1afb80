// A settable kind is a kind with laying added.
ghost use Rattle.std.specs.Prelude.{◌≡◌, ℕ, ◌+◌, ◌*◌, ◌^◌, ◌<◌, IfSome, if◌then◌else◌, Some as There, None as NotThere, Ok as Read, Option as Optional, OnOk, is_nan, to_bits};
ghost use Rattle.std.specs.Float.{binary32, binary64};
ghost use Rattle.std.specs.Int.{w32, w64};
ghost use Rattle.std.proofs.Common.{of_z};
ghost use Rattle.kinds.specs.Bodies.{body_read};
ghost use Rattle.kinds.specs.Kinds.{size_of, said};
ghost use Rattle.settable.specs.Laying.{lay_answer, lay_body};

use crate::laying::lay_value;
use kinds::{CanonicalFixedSizedPod, Fd, Fraction, Id, Rectangle};
use refusals::Why;
use words::DoubleWord;

// Values that can be laid: `word` is the word that means the value, or none where it is not a number.
pub trait SettableFixedSizedPod: CanonicalFixedSizedPod {
    ghost word: { Self → Optional ℕ };

    // The word that means this value to its kind.
    fn word(self) -> Option<u64>
        ensures value { result ≡ word self }
        ensures means { IfSome result (λ w. (Self.CanonicalFixedSizedPod.means w ≡ self) × (said Self.CanonicalFixedSizedPod.kind w ≡ w) × (w < 256 ^ size_of Self.CanonicalFixedSizedPod.kind)) };

    // Lays the value at the front of `body`, which then reads as this value; a refusal leaves the body.
    fn serialize_body(self, body: &mut [u8]) -> Result<(), Why>
        ensures answer { result ≡ lay_answer Self.CanonicalFixedSizedPod.kind (word self) body.old }
        ensures after { body.new ≡ lay_body Self.CanonicalFixedSizedPod.kind (word self) body.old }
        ensures reads { OnOk result (body_read Self.CanonicalFixedSizedPod.kind Self.CanonicalFixedSizedPod.means body.new ≡ Read self) }
    {
        lay_value(Self::kind(), self.word(), body)
    }
}

impl SettableFixedSizedPod for bool {
    ghost word = { λ b. There (if b then 1 else 0) };

    fn word(self) -> Option<u64> {
        Some(u64::from(self))
    }
}

impl SettableFixedSizedPod for Id {
    ghost word = { λ x. There x.0 };

    fn word(self) -> Option<u64> {
        Some(u64::from(self.0))
    }
}

impl SettableFixedSizedPod for i32 {
    ghost word = { λ x. There (of_z w32 x) };

    fn word(self) -> Option<u64> {
        Some(u64::from(self.cast_unsigned()))
    }
}

impl SettableFixedSizedPod for i64 {
    ghost word = { λ x. There (of_z w64 x) };

    fn word(self) -> Option<u64> {
        Some(self.cast_unsigned())
    }
}

impl SettableFixedSizedPod for f32 {
    ghost word = { λ x. (if is_nan x then NotThere else There (to_bits binary32 x)) };

    fn word(self) -> Option<u64> {
        if self.is_nan() {
            return None;
        }
        Some(u64::from(self.to_bits()))
    }
}

impl SettableFixedSizedPod for f64 {
    ghost word = { λ x. (if is_nan x then NotThere else There (to_bits binary64 x)) };

    fn word(self) -> Option<u64> {
        if self.is_nan() {
            return None;
        }
        Some(self.to_bits())
    }
}

impl SettableFixedSizedPod for Rectangle {
    ghost word = { λ x. There (x.width + x.height * 2 ^ 32) };

    fn word(self) -> Option<u64> {
        Some(u64::from(DoubleWord {
            low: self.width,
            high: self.height,
        }))
    }
}

impl SettableFixedSizedPod for Fraction {
    ghost word = { λ x. There (x.num + x.denom * 2 ^ 32) };

    fn word(self) -> Option<u64> {
        Some(u64::from(DoubleWord {
            low: self.num,
            high: self.denom,
        }))
    }
}

impl SettableFixedSizedPod for Fd {
    ghost word = { λ x. There (of_z w64 x.0) };

    fn word(self) -> Option<u64> {
        Some(self.0.cast_unsigned())
    }
}
