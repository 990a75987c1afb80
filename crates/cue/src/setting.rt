// Whether a value can be set, and laying it.
ghost use Rattle.std.specs.Prelude.{◌≡◌, ℕ, ◌+◌, ◌^◌, ◌<◌, ◌≤◌, true, length, Some as There};
ghost use Rattle.kinds.specs.Kinds.{size_of};
ghost use Rattle.words.specs.Words.{bytes_of, lay};
ghost use Rattle.settable.specs.Values.{value_kind, value_word};
ghost use Rattle.histories.specs.Plain.{can_set};
ghost use Rattle.laying.specs.Elements.{reworded as reworded_of};
ghost use Rattle.cue.specs.Permits.{Permitted};
ghost use Rattle.cue.specs.Pods.{set_checked};

use crate::parties::Party;
use crate::pod::Pod;
use pods::{PodType, Row};
use refusals::Why;
use settable::Value;

impl Pod<'_> {
    // Whether an element can be set: one below the count, and of a choice only the default.
    fn can_set(self, element: usize) -> bool
        ensures value { result ≡ can_set self.entry.row element }
        ensures few { result ≡ true → element < 2 ^ 32 }
    {
        element < self.row.count as usize && (!self.is(PodType::Choice) || element == 0)
    }

    // The word to lay, which is the value's, or the first check of the value that refuses.
    // Kept: the word is a parameter, as `set` says of every value that it is given, also of a refused one, that its word fits.
    pub fn checked(
        self,
        party: Party,
        element: usize,
        value: Value,
        word: Option<u64>,
    ) -> Result<u64, Why>
        requires { word ≡ value_word value }
        ensures { Permitted (set_checked self.entry party element value) value element result }
    {
        let kind = self.settable_kind().ok_or(Why::NotSettable)?;
        if kind != value.kind() {
            return Err(Why::OtherKind);
        }
        if !self.can_set(element) {
            return Err(Why::NoElement);
        }
        if !party.may_set(self.row) {
            return Err(Why::Locked);
        }
        let word = word.ok_or(Why::NotANumber)?;
        if !self.allows(kind, word) {
            return Err(Why::Forbidden);
        }
        Ok(word)
    }

    // The row once the value is set: an array's values are not in its row.
    pub fn reworded(self, word: u64) -> Row
        ensures { result ≡ reworded_of self.entry.row word }
    {
        if self.is(PodType::Array) {
            return self.row;
        }
        Row { word, ..self.row }
    }
}

// Lays a value at a place.
pub fn lay_at(bytes: &mut [u8], at: usize, value: Value)
    requires { at + size_of (value_kind value) ≤ length bytes.old }
    ensures { (w : ℕ) → value_word value ≡ There w → bytes.new ≡ lay at (bytes_of (size_of (value_kind value)) w) bytes.old }
{
    let _ = value.serialize_body(&mut bytes[at..]);
}
