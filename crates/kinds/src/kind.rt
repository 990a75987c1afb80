// The kinds, by number and size.
ghost use Rattle.std.specs.Prelude.{◌≡◌};
ghost use Rattle.kinds.specs.Bodies.{body_read};
ghost use Rattle.kinds.specs.Kinds.{IsKindOf, size_of, type_of};

use crate::numbers::{number32, number64};
use refusals::Why;

#[derive(Clone, Copy, Debug, PartialEq, Eq)]
pub enum Kind {
    None,
    Bool,
    Id,
    Int,
    Long,
    Float,
    Double,
    Rectangle,
    Fraction,
    Fd,
}

// The kind that a type number stands for; the numbers of other types are refused.
impl TryFrom<u32> for Kind {
    type Error = Why;

    ghost try_from_gives = { IsKindOf };

    #[tactic(auto, unfolding(crate::specs::Kinds::kind_of))]
    fn try_from(number: u32) -> Result<Kind, Why> {
        match number {
            1 => Ok(Kind::None),
            2 => Ok(Kind::Bool),
            3 => Ok(Kind::Id),
            4 => Ok(Kind::Int),
            5 => Ok(Kind::Long),
            6 => Ok(Kind::Float),
            7 => Ok(Kind::Double),
            10 => Ok(Kind::Rectangle),
            11 => Ok(Kind::Fraction),
            18 => Ok(Kind::Fd),
            _ => Err(Why::UnknownType),
        }
    }
}

// The number that stands for a kind in a header.
impl From<Kind> for u32 {
    ghost from_gives = { λ kind r. r ≡ type_of kind };

    fn from(kind: Kind) -> u32 {
        match kind {
            Kind::None => 1,
            Kind::Bool => 2,
            Kind::Id => 3,
            Kind::Int => 4,
            Kind::Long => 5,
            Kind::Float => 6,
            Kind::Double => 7,
            Kind::Rectangle => 10,
            Kind::Fraction => 11,
            Kind::Fd => 18,
        }
    }
}

impl Kind {
    // How many bytes its body has, without padding.
    pub fn size(self) -> usize
        ensures { result ≡ size_of self }
    {
        match self {
            Kind::None => 0,
            Kind::Bool | Kind::Id | Kind::Int | Kind::Float => 4,
            Kind::Long | Kind::Double | Kind::Rectangle | Kind::Fraction | Kind::Fd => 8,
        }
    }

    // The word at the front of `body`, which may go on after it.
    pub fn word(self, body: &[u8]) -> Result<u64, Why>
        ensures { result ≡ body_read self (λ w. w) body.now }
    {
        match self {
            Kind::None => Ok(0),
            Kind::Bool => {
                let number = number32(body)?;
                Ok(u64::from(number != 0))
            }
            Kind::Id | Kind::Int | Kind::Float => {
                let number = number32(body)?;
                Ok(u64::from(number))
            }
            Kind::Long | Kind::Double | Kind::Rectangle | Kind::Fraction | Kind::Fd => number64(
                body,
            ),
        }
    }
}
