// The parties.
ghost use Rattle.std.specs.Prelude.{◌≡◌};
ghost use Rattle.histories.specs.Parties.{may_set};
ghost use Rattle.cue.specs.Parties.{IsParty, party_number};

use pods::Row;
use refusals::Why;

#[derive(Clone, Copy, Debug, PartialEq, Eq)]
pub enum Party {
    Rigging,
    StageManagement,
}

// The party of a number; other numbers are refused.
impl TryFrom<u32> for Party {
    type Error = Why;

    ghost try_from_gives = { IsParty };

    fn try_from(number: u32) -> Result<Party, Why> {
        match number {
            1 => Ok(Party::Rigging),
            2 => Ok(Party::StageManagement),
            _ => Err(Why::NoParty),
        }
    }
}

impl Party {
    // Stage management may not set what is read-only.
    pub fn may_set(self, row: Row) -> bool
        ensures { result ≡ may_set (party_number self) row }
    {
        self != Party::StageManagement || row.locked != 1
    }
}
