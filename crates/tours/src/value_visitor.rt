// Rows from what is told.
ghost use Rattle.std.specs.Prelude.{◌≡◌, ◌+◌, [], ◌∷◌};
ghost use Rattle.tours.specs.Lead.{Kept};
ghost use Rattle.tours.specs.Told.{thing};
ghost use Rattle.tours.specs.Table.{Table, counted, fills, holder as holder_of};
ghost use Rattle.tours.specs.Rowed.{table_of, empty, dressed, placed, left, numbered, unkept};

use crate::told::Told;
use crate::visitor::Visitor;
use pods::{PodType, Row};
use words::DoubleWord;

// Fills a lent table from its start, a row for each pod; `within` is the row of the innermost open container and one more,
// and `key` and `flags` are of the latest property.
// Kept: the library has no heap, and rows that stand are found by their number, so a lent table has a length beside it.
// Kept: `within` has the form of a row's `parent`, which is 0 where nothing is open.
#[derive(Drop)]
pub struct ValueVisitor<'a> {
    rows: &'a mut [Row],
    len: usize,
    within: u32,
    key: u32,
    flags: u32,
}

// Why a table of rows keeps no more.
#[derive(Clone, Copy, Debug, PartialEq, Eq)]
enum Unkept {
    TableFull,
    // an end, where no container is open
    NothingOpen,
}

// The number with which a visitor refuses.
impl From<Unkept> for u32 {
    ghost from_gives = { λ why r. r ≡ unkept why };

    fn from(why: Unkept) -> u32 {
        match why {
            Unkept::TableFull => 1,
            Unkept::NothingOpen => 2,
        }
    }
}

impl Visitor for ValueVisitor<'_> {
    ghost Held = { Table };

    ghost held = { table_of };

    ghost rule = { fills };

    ghost lent = { λ s. s.rows.ghost_name ∷ [] };

    fn visit(&mut self, told: Told<'_>) -> Result<(), u32> {
        Ok(self.keep(told)?)
    }
}

impl<'a> ValueVisitor<'a> {
    // Fills a table from its start, from before a cue is told.
    pub fn new(rows: &'a mut [Row]) -> Self
        ensures holds { table_of result ≡ empty rows.old }
        ensures lends { result.rows.ghost_name ≡ rows.entry.ghost_name }
    {
        ValueVisitor {
            rows,
            len: 0,
            within: 0,
            key: 0,
            flags: 0,
        }
    }
}

impl ValueVisitor<'_> {
    // How many rows stand.
    pub fn len(&self) -> usize
        ensures { result ≡ (table_of self.now).len }
    {
        self.len
    }

    // The row of the innermost open container.
    fn holder(&self) -> Row
        ensures { result ≡ holder_of (table_of self.now) }
    {
        let Some(at) = (self.within as usize).checked_sub(1) else {
            return Row::default();
        };
        self.rows.get(at).copied().unwrap_or_default()
    }

    // A pod's row with what comes from its property and from what holds it.
    fn dress(&self, row: Row) -> Row
        ensures { result ≡ dressed (table_of self.now) row }
    {
        Row {
            parent: self.within,
            key: self.key,
            flags: self.flags,
            locked: self.holder().locked.max(self.flags % 2),
            ..row
        }
    }

    // Keeps what is told: a row for a pod, a property for the pod after it, and where a container ends.
    // Kept: that the rows stay those that were lent is said of this and the three steps below, since an invariant cannot speak of the
    // value before.
    fn keep(&mut self, told: Told<'_>) -> Result<(), Unkept>
        ensures keeps { self.new.rows.ghost_name ≡ self.old.rows.ghost_name }
        ensures does { Kept (fills (table_of self.old) (thing told.entry)) (numbered result) (table_of self.old) (table_of self.new) }
    {
        match told {
            Told::Fixed {
                place,
                total,
                kind,
                word,
            } => self.add(Row {
                place,
                total,
                kind,
                count: 1,
                word,
                ..Row::default()
            }),
            Told::Text { place, total, part } => self.add(Row {
                place,
                total,
                kind: u32::from(PodType::Text),
                count: count_of(part),
                ..Row::default()
            }),
            Told::Raw { place, total, part } => self.add(Row {
                place,
                total,
                kind: u32::from(PodType::Raw),
                count: count_of(part),
                ..Row::default()
            }),
            Told::ArrayOf {
                place,
                total,
                child,
                count,
            } => self.add(Row {
                place,
                total,
                kind: u32::from(PodType::Array),
                child,
                count,
                ..Row::default()
            }),
            Told::ChoiceOf {
                place,
                total,
                child,
                choice,
                flags,
                count,
                default,
            } => self.add(Row {
                place,
                total,
                kind: u32::from(PodType::Choice),
                child,
                count,
                side: choice,
                bits: flags,
                word: default,
                ..Row::default()
            }),
            Told::Pointer {
                place,
                total,
                kind,
                word,
            } => self.add(Row {
                place,
                total,
                kind: u32::from(PodType::Pointer),
                count: 1,
                side: kind,
                word,
                ..Row::default()
            }),
            Told::StructOpen { place, total } => self.enter(Row {
                place,
                total,
                kind: u32::from(PodType::Struct),
                count: 1,
                ..Row::default()
            }),
            Told::ObjectOpen {
                place,
                total,
                kind,
                id,
            } => self.enter(Row {
                place,
                total,
                kind: u32::from(PodType::Object),
                count: 1,
                word: u64::from(DoubleWord {
                    low: kind,
                    high: id,
                }),
                ..Row::default()
            }),
            Told::Element { .. } => Ok(()),
            Told::Property { key, flags } => {
                self.key = key;
                self.flags = flags;
                Ok(())
            }
            Told::End => self.leave(),
        }
    }

    // One row more, unless the table is full; the property is used up.
    fn add(&mut self, row: Row) -> Result<(), Unkept>
        ensures keeps { self.new.rows.ghost_name ≡ self.old.rows.ghost_name }
        ensures does { Kept (placed (table_of self.old) row self.old.within) (numbered result) (table_of self.old) (table_of self.new) }
    {
        if self.len >= self.rows.len().min(u32::MAX as usize) {
            return Err(Unkept::TableFull);
        }
        self.rows[self.len] = self.dress(row);
        self.len += 1;
        self.key = 0;
        self.flags = 0;
        Ok(())
    }

    // One row more, of a container that is then the innermost.
    fn enter(&mut self, row: Row) -> Result<(), Unkept>
        ensures keeps { self.new.rows.ghost_name ≡ self.old.rows.ghost_name }
        ensures does { Kept (placed (table_of self.old) row (self.old.len + 1)) (numbered result) (table_of self.old) (table_of self.new) }
    {
        self.add(row)?;
        self.within = self.len as u32;
        Ok(())
    }

    // Goes back to what holds the innermost open container.
    fn leave(&mut self) -> Result<(), Unkept>
        ensures keeps { self.new.rows.ghost_name ≡ self.old.rows.ghost_name }
        ensures does { Kept (left (table_of self.old)) (numbered result) (table_of self.old) (table_of self.new) }
    {
        if self.within == 0 {
            return Err(Unkept::NothingOpen);
        }
        self.within = self.holder().parent;
        Ok(())
    }
}

// How many bytes there are, up to the largest number of 32 bits.
fn count_of(part: &[u8]) -> u32
    ensures { result ≡ counted part.now }
{
    part.len().min(u32::MAX as usize) as u32
}
