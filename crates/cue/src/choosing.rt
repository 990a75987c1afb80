// What a choice allows.
ghost use Rattle.std.specs.Prelude.{◌≡◌, ◌≤◌};
ghost use Rattle.cue.specs.Pods.{is_allowed, is_among, is_between};

use crate::pod::Pod;
use kinds::Kind;
use pods::{ChoiceType, PodType};
use settable::at_most;

impl Pod<'_> {
    // Whether a word is that of an alternative, which are the values after the default.
    fn among(self, word: u64) -> bool
        ensures { result ≡ is_among self.entry word }
    {
        (1..self.row.count).any(|i| self.word_at(i as usize) == word)
    }

    // Whether a word lies between the two values after the default.
    fn between(self, kind: Kind, word: u64) -> bool
        requires { 3 ≤ self.row.count }
        ensures { result ≡ is_between self.entry kind word }
    {
        at_most(kind, self.word_at(1), word) && at_most(kind, word, self.word_at(2))
    }

    // Whether a word is allowed as the pod's value; what is no choice allows all.
    #[tactic(auto, unfolding(histories::specs::Choosing::row_allows))]
    pub fn allows(self, kind: Kind, word: u64) -> bool
        ensures { result ≡ is_allowed self.entry kind word }
    {
        if !self.is(PodType::Choice) {
            return true;
        }
        let Ok(choice) = ChoiceType::try_from(self.row.side) else {
            return true;
        };
        match choice {
            ChoiceType::None | ChoiceType::Flags => true,
            ChoiceType::Range | ChoiceType::Step => self.between(kind, word),
            ChoiceType::Enum => self.among(word),
        }
    }
}
