// The types of pods, by number.
ghost use Rattle.std.specs.Prelude.{◌≡◌};
ghost use Rattle.pods.specs.Types.{IsTypeOf, type_number};

use kinds::Kind;
use refusals::Why;

#[derive(Clone, Copy, Debug, PartialEq, Eq)]
pub enum PodType {
    Fixed(Kind),
    Text,
    Raw,
    Array,
    Struct,
    Object,
    Pointer,
    Choice,
}

// The type that a number in a header stands for; other numbers are refused.
impl TryFrom<u32> for PodType {
    type Error = Why;

    ghost try_from_gives = { IsTypeOf };

    fn try_from(number: u32) -> Result<PodType, Why> {
        match number {
            8 => Ok(PodType::Text),
            9 => Ok(PodType::Raw),
            13 => Ok(PodType::Array),
            14 => Ok(PodType::Struct),
            15 => Ok(PodType::Object),
            17 => Ok(PodType::Pointer),
            19 => Ok(PodType::Choice),
            _ => Ok(PodType::Fixed(Kind::try_from(number)?)),
        }
    }
}

// The number that stands for a type in a header.
impl From<PodType> for u32 {
    ghost from_gives = { λ kind r. r ≡ type_number kind };

    fn from(kind: PodType) -> u32 {
        match kind {
            PodType::Fixed(kind) => u32::from(kind),
            PodType::Text => 8,
            PodType::Raw => 9,
            PodType::Array => 13,
            PodType::Struct => 14,
            PodType::Object => 15,
            PodType::Pointer => 17,
            PodType::Choice => 19,
        }
    }
}
