// The choice types.
ghost use Rattle.std.specs.Prelude.{◌≡◌};
ghost use Rattle.pods.specs.Choices.{IsChoiceTypeOf, flags_kept, needed as needed_of, used_of};

use refusals::Why;

#[derive(Clone, Copy, Debug, PartialEq, Eq)]
pub enum ChoiceType {
    None,
    Range,
    Step,
    Enum,
    Flags,
}

// The choice type that a number stands for; other numbers are refused.
impl TryFrom<u32> for ChoiceType {
    type Error = Why;

    ghost try_from_gives = { IsChoiceTypeOf };

    #[tactic(auto, unfolding(crate::specs::Choices::choice_type_of))]
    fn try_from(number: u32) -> Result<ChoiceType, Why> {
        match number {
            0 => Ok(ChoiceType::None),
            1 => Ok(ChoiceType::Range),
            2 => Ok(ChoiceType::Step),
            3 => Ok(ChoiceType::Enum),
            4 => Ok(ChoiceType::Flags),
            _ => Err(Why::ChoiceType),
        }
    }
}

impl ChoiceType {
    // How many values a choice of this type needs.
    pub fn needed(self) -> usize
        ensures { result ≡ needed_of self }
    {
        match self {
            ChoiceType::None | ChoiceType::Enum | ChoiceType::Flags => 1,
            ChoiceType::Range => 3,
            ChoiceType::Step => 4,
        }
    }

    // How many of `n` values a choice of this type uses.
    pub fn used(self, n: usize) -> usize
        ensures { result ≡ used_of self n }
    {
        match self {
            ChoiceType::None | ChoiceType::Range | ChoiceType::Step => self.needed(),
            ChoiceType::Enum | ChoiceType::Flags => n,
        }
    }

    // The flags that a choice of this type keeps of those that it declares.
    pub fn kept(self, flags: u32) -> u32
        ensures { result ≡ flags_kept self flags }
    {
        match self {
            ChoiceType::None => 0,
            ChoiceType::Range | ChoiceType::Step | ChoiceType::Enum | ChoiceType::Flags => flags,
        }
    }
}
