// The values of an array or choice, one after the other.
ghost use Rattle.std.specs.Prelude.{◌*◌, ◌≤◌, length};
ghost use Rattle.kinds.specs.Kinds.{size_of};

use crate::told::Told;
use kinds::Kind;

// Those that are still to be told: so many of a kind, at the front of some bytes.
#[derive(Clone, Copy)]
pub struct Elements<'a> {
    pub bytes: &'a [u8],
    pub kind: Kind,
    pub left: usize,
    pub ghost there: { left * size_of kind ≤ length bytes.now },
}

impl<'a> Iterator for Elements<'a> {
    ghost use Rattle.std.specs.Iterator.{YieldsFirstBy, item_count};
    ghost use Rattle.tours.specs.Starts.{elements_left};
    ghost use Rattle.tours.specs.Told.{thing};

    type Item = Told<'a>;

    ghost next_gives = { YieldsFirstBy thing elements_left };

    ghost remaining = { item_count elements_left };

    fn next(&mut self) -> Option<Told<'a>> {
        let left = self.left.checked_sub(1)?;
        let word = self.kind.word(self.bytes).ok()?;
        self.bytes = &self.bytes[self.kind.size()..];
        self.left = left;
        Some(Told::Element {
            kind: u32::from(self.kind),
            word,
        })
    }
}

impl<'a> Elements<'a> {
    ghost use Rattle.std.specs.Prelude.{◌≡◌, []};
    ghost use Rattle.tours.specs.Starts.{elements_left};

    // None of `bytes`.
    // Kept: an iterator that is at its end, so that a teller asks one value, where an `Option` would make it ask two.
    pub fn none(bytes: &'a [u8]) -> Self
        ensures { elements_left result ≡ [] }
    {
        Elements {
            bytes,
            kind: Kind::None,
            left: 0,
        }
    }
}
