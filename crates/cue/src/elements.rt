// The elements of a pod: where they stand, and what they say.
ghost use Rattle.std.specs.Prelude.{◌≡◌, ◌==◌, ◌+◌, ◌^◌, ◌<◌, ◌≤◌, length, drop};
ghost use Rattle.kinds.specs.Kinds.{kind_of};
ghost use Rattle.pods.specs.Types.{type_number};
ghost use Rattle.laying.specs.Elements.{bytes_by, element_place, element_size, first_place, has_bytes, has_values, settable_kind, settable_type, word_by};
ghost use Rattle.cue.specs.Pods.{look_in, looked};

use crate::pod::Pod;
use kinds::Kind;
use pods::PodType;
use refusals::Why;

impl Pod<'_> {
    // Whether the pod is of a type.
    pub fn is(self, kind: PodType) -> bool
        ensures { result ≡ self.entry.row.kind == type_number kind }
    {
        self.row.kind == u32::from(kind)
    }

    // Whether its elements are its bytes.
    fn has_bytes(self) -> bool
        ensures { result ≡ has_bytes self.entry.row }
    {
        self.is(PodType::Text) || self.is(PodType::Raw)
    }

    // Whether its elements are values of the child's type.
    fn has_values(self) -> bool
        ensures { result ≡ has_values self.entry.row }
    {
        self.is(PodType::Array) || self.is(PodType::Choice)
    }

    // Where the first element stands: after the header, and in an array or choice after what is said of its values.
    fn first_place(self) -> usize
        ensures value { result ≡ first_place self.entry.row }
        ensures low { result < 2 ^ 33 }
    {
        let place = self.row.place as usize;
        if self.is(PodType::Array) {
            place + 16
        } else if self.is(PodType::Choice) {
            place + 24
        } else {
            place + 8
        }
    }

    // How many bytes an element has.
    fn element_size(self) -> usize
        ensures { result ≡ element_size self.entry.row }
    {
        if self.has_bytes() {
            1
        } else if self.has_values() {
            size_of_type(self.row.child)
        } else {
            size_of_type(self.row.kind)
        }
    }

    // Where an element stands.
    pub fn element_place(self, element: usize) -> usize
        requires { element < 2 ^ 32 }
        ensures { result ≡ element_place self.entry.row element }
    {
        self.first_place() + element * self.element_size()
    }

    // The word of the value of the child's type at a place.
    fn value_at(self, at: usize) -> u64
        requires { at + bytes_by (kind_of self.row.child) ≤ length self.bytes.now }
        ensures { result ≡ word_by (kind_of self.entry.row.child) (drop at self.entry.bytes.now) }
    {
        let Ok(kind) = Kind::try_from(self.row.child) else {
            return 0;
        };
        kind.word(&self.bytes[at..]).unwrap_or(0)
    }

    // What an element says: a byte of text or raw data, a value of an array or choice, else the word of the row.
    pub fn word_at(self, element: usize) -> u64
        requires { element < self.row.count }
        ensures { result ≡ look_in self.entry element }
    {
        if self.has_bytes() {
            u64::from(self.bytes[self.element_place(element)])
        } else if self.has_values() {
            self.value_at(self.element_place(element))
        } else {
            self.row.word
        }
    }

    // The same of any number of an element.
    pub fn look(self, element: usize) -> Result<u64, Why>
        ensures { result ≡ looked self.entry element }
    {
        if element >= self.row.count as usize {
            return Err(Why::NoElement);
        }
        Ok(self.word_at(element))
    }

    // The kind of what can be set: the pod's own or, of an array or choice, its child's.
    pub fn settable_kind(self) -> Option<Kind>
        ensures { result ≡ settable_kind self.entry.row }
    {
        settable_type(self.row.kind).or(settable_type(self.row.child))
    }
}

// How many bytes a value of a type has.
fn size_of_type(number: u32) -> usize
    ensures { result ≡ bytes_by (kind_of number) }
{
    Kind::try_from(number).map_or(0, Kind::size)
}

// The kind of a type whose values can be set: any but None.
fn settable_type(number: u32) -> Option<Kind>
    ensures { result ≡ settable_type number }
{
    Kind::try_from(number)
        .ok()
        .filter(|kind| *kind != Kind::None)
}
