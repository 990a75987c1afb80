// Tells what a cue tells, from its bytes.
ghost use Rattle.std.specs.Prelude.{◌≡◌, ◌≤◌, length};
ghost use Rattle.tours.specs.ByteTold.{Standing};
ghost use Rattle.tours.specs.Told.{told_by};
ghost use Rattle.tours.specs.Tours.{Toured, tour};

use crate::elements::Elements;
use crate::open::{Frame, Open, due, past};
use crate::starts::{Then, start_at};
use crate::stop::Stop;
use crate::telling::tell_all;
use crate::told::Told;
use crate::visitor::Visitor;
use pods::{Holds, survey};
use refusals::Refusal;
use words::two_words;

// Stands at the next pod of bytes that a survey has accepted, or at the property before it.
#[derive(Drop)]
pub struct ByteTeller<'a> {
    bytes: &'a [u8],
    at: usize,
    open: Open,
    keyed: bool,
    values: Elements<'a>,
    ghost short: { length bytes.now ≤ 65536 },
    ghost stands: { ∥ Standing bytes.now at «open» keyed ∥₁ },
}

impl<'a> Iterator for ByteTeller<'a> {
    ghost use Rattle.std.specs.Iterator.{YieldsFirstBy, item_count};
    ghost use Rattle.tours.specs.BytesLeft.{to_tell};
    ghost use Rattle.tours.specs.Told.{thing};

    type Item = Told<'a>;

    ghost next_gives = { YieldsFirstBy thing to_tell };

    ghost remaining = { item_count to_tell };

    fn next(&mut self) -> Option<Told<'a>> {
        if let Some(told) = self.values.next() {
            return Some(told);
        }
        let Some(frame) = self.open.innermost() else {
            if self.at == 0 {
                return self.take(Holds::Fields);
            }
            return None;
        };
        if frame.remaining == 0 {
            self.open.pop();
            return Some(Told::End);
        }
        if due(frame.holds, self.keyed) {
            return self.name();
        }
        self.take(frame.holds)
    }
}

impl<'a> ByteTeller<'a> {
    ghost use Rattle.std.specs.Prelude.{◌≡◌, true, false, []};
    ghost use Rattle.std.specs.Iterator.{YieldsFirstBy};
    ghost use Rattle.pods.specs.declared.holding.Holds.TheVariants.{Properties as PropertiesHeld};
    ghost use Rattle.tours.specs.ByteTold.{Due};
    ghost use Rattle.tours.specs.BytesLeft.{TellsAll, to_tell};
    ghost use Rattle.tours.specs.Starts.{elements_left};
    ghost use Rattle.tours.specs.Told.{thing, told_by};

    // Has all to tell that the bytes of a cue tell; bytes that the survey refuses are refused.
    fn new(bytes: &'a [u8]) -> Result<Self, Refusal>
        ensures { TellsAll (told_by bytes.now) result }
    {
        survey(bytes)?;
        Ok(ByteTeller {
            bytes,
            at: 0,
            open: Open::new(),
            keyed: false,
            values: Elements::none(bytes),
        })
    }

    // Tells the key and flags of the property that is due.
    // Kept: that no values are left holds only before the next pod, so that it is no invariant; this, `take` and `next_row` ask it.
    fn name(&mut self) -> Option<Told<'a>>
        requires due { Due PropertiesHeld self.old.at self.old.«open» true }
        requires unnamed { self.old.keyed ≡ false }
        requires none { elements_left self.old.values ≡ [] }
        ensures { YieldsFirstBy thing to_tell self.old result self.new }
    {
        let named = two_words(&self.bytes[self.at..])?;
        self.keyed = true;
        Some(Told::Property {
            key: named.first,
            flags: named.second,
        })
    }

    // Tells how the pod that is due starts, and goes on behind it, to its values or into it.
    fn take(&mut self, holds: Holds) -> Option<Told<'a>>
        requires due { Due holds self.old.at self.old.«open» self.old.keyed }
        requires none { elements_left self.old.values ≡ [] }
        ensures { YieldsFirstBy thing to_tell self.old result self.new }
    {
        let place = past(holds, self.at);
        let start = start_at(self.bytes, place)?;
        self.open.charge(past(holds, start.total));
        self.keyed = false;
        match start.then {
            Then::On => {
                self.at = place + start.total;
                Some(start.told)
            }
            Then::Values(values) => {
                self.values = values;
                self.at = place + start.total;
                Some(start.told)
            }
            Then::Into(inside) => {
                let opening = past(inside, 8);
                self.open.push(Frame {
                    holds: inside,
                    remaining: start.total - opening,
                });
                self.at = place + opening;
                Some(start.told)
            }
        }
    }
}

// Tells all that the bytes of a cue tell; answers how many things were told. Bytes that the survey refuses tell nothing.
pub fn tour_bytes<V: Visitor>(bytes: &[u8], visitor: &mut V) -> Result<usize, Stop>
    ensures keeps { V.lent visitor.new ≡ V.lent visitor.old }
    ensures leads { Toured (tour V.rule (V.held visitor.old) (told_by bytes.now)) result (V.held visitor.new) }
{
    let teller = ByteTeller::new(bytes)?;
    Ok(tell_all(teller, visitor)?)
}
