// One value of any settable kind.
ghost use Rattle.std.specs.Prelude.{◌≡◌, ◌^◌, ◌<◌, IfSome};
ghost use Rattle.kinds.specs.Kinds.{said, size_of};
ghost use Rattle.settable.specs.Laying.{lay_answer, lay_body};
ghost use Rattle.settable.specs.Values.{value_kind, value_word};

use crate::laying::lay_value;
use crate::settable::SettableFixedSizedPod;
use kinds::{Fd, Fraction, Id, Kind, Rectangle};
use refusals::Why;

#[derive(Clone, Copy)]
pub enum Value {
    Bool(bool),
    Id(Id),
    Int(i32),
    Long(i64),
    Float(f32),
    Double(f64),
    Rectangle(Rectangle),
    Fraction(Fraction),
    Fd(Fd),
}

impl Value {
    pub fn kind(self) -> Kind
        ensures { result ≡ value_kind self }
    {
        match self {
            Value::Bool(_) => Kind::Bool,
            Value::Id(_) => Kind::Id,
            Value::Int(_) => Kind::Int,
            Value::Long(_) => Kind::Long,
            Value::Float(_) => Kind::Float,
            Value::Double(_) => Kind::Double,
            Value::Rectangle(_) => Kind::Rectangle,
            Value::Fraction(_) => Kind::Fraction,
            Value::Fd(_) => Kind::Fd,
        }
    }

    // Its word, or none where it is not a number.
    // Kept: the nine values are of nine types, so only a match finds the method of each.
    pub fn word(self) -> Option<u64>
        ensures value { result ≡ value_word self }
        ensures fits { IfSome result (λ w. (w < 256 ^ size_of (value_kind self)) × (said (value_kind self) w ≡ w)) }
    {
        match self {
            Value::Bool(value) => value.word(),
            Value::Id(value) => value.word(),
            Value::Int(value) => value.word(),
            Value::Long(value) => value.word(),
            Value::Float(value) => value.word(),
            Value::Double(value) => value.word(),
            Value::Rectangle(value) => value.word(),
            Value::Fraction(value) => value.word(),
            Value::Fd(value) => value.word(),
        }
    }

    // Lays the value at the front of `body`; a refusal leaves the body.
    pub fn serialize_body(self, body: &mut [u8]) -> Result<(), Why>
        ensures answer { result ≡ lay_answer (value_kind self) (value_word self) body.old }
        ensures after { body.new ≡ lay_body (value_kind self) (value_word self) body.old }
    {
        lay_value(self.kind(), self.word(), body)
    }
}
