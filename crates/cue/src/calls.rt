// The calls on a held cue.
ghost use Rattle.std.specs.Prelude.{◌≡◌, true, List, None as Nothing};
ghost use Rattle.tours.specs.Told.{Thing};
ghost use Rattle.histories.specs.Held.{holding, refilled as refilled_of, relaid as relaid_of, IsValue, Looked, TouredBytes, TouredRows, WasReread, WasSet};
ghost use Rattle.histories.specs.Histories.{Life};
ghost use Rattle.cue.specs.Permits.{CanLay, Permitted, set_answer};
ghost use Rattle.cue.specs.Keeps.{held_of, Lent, Opens, standing_of};

use crate::held::Cue;
use crate::opened::Opened;
use crate::parties::Party;
use crate::pod::Pod;
use crate::setting::lay_at;
use pods::Row;
use refusals::Why;
use settable::Value;
use std::mem::replace;
use tours::{Visitor, fill};

impl<'a> Cue<'a> {
    // Holding cannot refuse: what the check refuses is held shut and untouched.
    pub fn hold(bytes: &'a mut [u8], rows: &'a mut [Row]) -> Cue<'a>
        ensures held { held_of result ≡ holding bytes.old rows.old }
        ensures lends { (result.bytes.ghost_name ≡ bytes.entry.ghost_name) × (result.rows.ghost_name ≡ rows.entry.ghost_name) }
        ensures life { (held_of result).opened ≡ true → Life (List Thing) bytes.old (held_of result) }
    {
        let standing = fill(bytes, rows).ok().map(|found| found.rows);
        Cue {
            bytes,
            rows,
            standing,
        }
    }

    // The bytes and the rows that stand, or a refusal where the cue is shut.
    fn opened(&self) -> Result<Opened<'_>, Why>
        ensures { Opens (held_of self.now) result }
    {
        let count = self.standing.ok_or(Why::Shut)?;
        Ok(Opened {
            bytes: self.bytes,
            rows: &self.rows[..count],
        })
    }

    // The word of an element: a byte of text or raw data, a value of an array or choice, else the word of the row.
    pub fn look(&self, row: usize, element: usize) -> Result<u64, Why>
        ensures { Looked (held_of self.now) row element result }
    {
        self.opened()?.pod(row)?.look(element)
    }

    // Lays a value at an element for a party: rigging is 1, stage management 2. A refusal changes nothing.
    // Kept: that the slices stay those that were lent is said of each change, since an invariant cannot speak of the value before.
    // Kept: the party is a number here, a rule for the call, so that another number can be refused.
    pub fn set(&mut self, party: u32, row: usize, element: usize, value: Value) -> Result<(), Why>
        ensures was { WasSet (held_of self.old) party row element value result (held_of self.new) }
        ensures lent { Lent self.old self.new }
    {
        let word = self.permitted(party, row, element, value)?;
        let cue = replace(self, none());
        *self = cue.relaid(row, element, value, word);
        Ok(())
    }

    // The word to lay, which is the value's, or the first check that refuses.
    fn permitted(&self, party: u32, row: usize, element: usize, value: Value) -> Result<u64, Why>
        ensures value { IsValue value }
        ensures answer { Permitted (set_answer (held_of self.now) party row element value) value element result }
    {
        let word = value.word();
        let cue = self.opened()?;
        let party = Party::try_from(party)?;
        cue.pod(row)?.checked(party, element, value, word)
    }

    // The cue with a value laid at an element, and its row updated.
    fn relaid(self, row: usize, element: usize, value: Value, word: u64) -> Cue<'a>
        requires { CanLay (held_of self) row element value word }
        ensures was { held_of result ≡ relaid_of (held_of self.entry) row element value }
        ensures lent { Lent self.entry result }
    {
        let Cue {
            bytes,
            rows,
            standing,
        } = self;
        let pod = Pod {
            bytes,
            row: rows[row],
        };
        let at = pod.element_place(element);
        rows[row] = pod.reworded(word);
        lay_at(bytes, at, value);
        Cue {
            bytes,
            rows,
            standing,
        }
    }

    // Fills the rows from the bytes.
    pub fn reread(&mut self) -> Result<(), Why>
        ensures was { WasReread (held_of self.old) result (held_of self.new) }
        ensures lent { Lent self.old self.new }
    {
        self.opened()?;
        let cue = replace(self, none());
        *self = cue.refilled();
        Ok(())
    }

    // The cue with its rows filled from its bytes.
    fn refilled(self) -> Cue<'a>
        requires { (held_of self).opened ≡ true }
        ensures was { held_of result ≡ refilled_of (held_of self.entry) }
        ensures lent { Lent self.entry result }
    {
        let Cue {
            bytes,
            rows,
            standing,
        } = self;
        let _ = fill(bytes, rows);
        Cue {
            bytes,
            rows,
            standing,
        }
    }

    // Tells all that the bytes tell, up to the visitor's first refusal; answers how many things were told.
    pub fn tour_bytes<V: Visitor>(&self, visitor: &mut V) -> Result<usize, Why>
        ensures toured { TouredBytes (held_of self.now) V.rule (V.held visitor.old) (result, V.held visitor.new) }
        ensures keeps { V.lent visitor.new ≡ V.lent visitor.old }
    {
        let cue = self.opened()?;
        tours::tour_bytes(cue.bytes, visitor).map_err(Why::from)
    }

    // The same from the rows that stand.
    pub fn tour_rows<V: Visitor>(&self, visitor: &mut V) -> Result<usize, Why>
        ensures toured { TouredRows (held_of self.now) V.rule (V.held visitor.old) (result, V.held visitor.new) }
        ensures keeps { V.lent visitor.new ≡ V.lent visitor.old }
    {
        let cue = self.opened()?;
        tours::tour_rows(cue.bytes, cue.rows, visitor).map_err(Why::from)
    }

    // Whether the cue is open, and how many rows stand.
    pub fn standing(&self) -> Option<usize>
        ensures { result ≡ standing_of (held_of self.now) }
    {
        self.standing
    }

    // Ends the cue's life: the bytes and the table as they then are, to whoever goes on with them.
    pub fn release(self) -> (&'a mut [u8], &'a mut [Row])
        ensures { (result.0.now ≡ (held_of self.entry).bytes) × (result.1.now ≡ (held_of self.entry).rows) }
    {
        let Cue { bytes, rows, .. } = self;
        (bytes, rows)
    }
}

// A cue of nothing, shut, which stands in while a cue is changed.
// Kept: `mem::take` needs a public `Default`, by which anyone could make a cue that nobody lent.
fn none<'a>() -> Cue<'a>
    ensures { result.standing ≡ Nothing }
{
    Cue {
        bytes: &mut [],
        rows: &mut [],
        standing: None,
    }
}
