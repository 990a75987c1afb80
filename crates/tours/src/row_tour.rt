// A tour of rows: of the bytes only texts, raw bytes and values are looked at.
ghost use Rattle.std.specs.Prelude.{◌≡◌, ℕ, []};
ghost use Rattle.std.specs.Iterator.{YieldsFirstBy, item_count};
ghost use Rattle.kinds.specs.Kinds.{kind_of};
ghost use Rattle.pods.specs.Outcomes.{gave};
ghost use Rattle.pods.specs.Survey.{rows_in, says};
ghost use Rattle.pods.specs.Trees.{Tree};
ghost use Rattle.tours.specs.Lead.{lead};
ghost use Rattle.tours.specs.RowsLeft.{Pending, after_pod, to_tell};
ghost use Rattle.tours.specs.RowsTold.{elements_at, frame_of, row_content, row_elements, rows_tell};
ghost use Rattle.tours.specs.Starts.{elements_left};
ghost use Rattle.tours.specs.Told.{pod, thing, told_by};
ghost use Rattle.tours.specs.Tours.{Toured, ended, tour};

use crate::elements::Elements;
use crate::open::{Frame, Open, due, past};
use crate::parts::part;
use crate::starts::values_in;
use crate::stop::Stop;
use crate::telling::tell_all;
use crate::told::Told;
use crate::visitor::Visitor;
use kinds::Kind;
use pods::{Holds, PodType, Row};
use words::DoubleWord;

// At most so many values from a place on, as many as are there.
fn elements_at(bytes: &[u8], child: u32, count: u32, from: usize) -> Elements<'_>
    ensures { elements_left result ≡ elements_at (kind_of child) count from bytes.now }
{
    let Ok(kind) = Kind::try_from(child) else {
        return Elements::none(bytes);
    };
    let Some(rest) = bytes.get(from..) else {
        return Elements::none(bytes);
    };
    Elements {
        bytes: rest,
        kind,
        left: values_in(rest.len(), 0, kind.size()).min(count as usize),
    }
}

// The container that a row opens.
fn frame(row: Row) -> Option<Frame>
    ensures { result ≡ frame_of row }
{
    let holds = match PodType::try_from(row.kind).ok()? {
        PodType::Struct => Holds::Fields,
        PodType::Object => Holds::Properties,
        _ => return None,
    };
    Some(Frame {
        holds,
        remaining: (row.total as usize).saturating_sub(past(holds, 8)),
    })
}

// Tells rows.
#[derive(Drop)]
pub struct RowTeller<'a> {
    bytes: &'a [u8],
    rows: &'a [Row],
    open: Open,
    // the key and flags of the next row were told
    keyed: bool,
    values: Elements<'a>,
}

impl<'a> Iterator for RowTeller<'a> {
    type Item = Told<'a>;

    ghost next_gives = { YieldsFirstBy thing to_tell };

    ghost remaining = { item_count to_tell };

    fn next(&mut self) -> Option<Told<'a>> {
        if let Some(told) = self.values.next() {
            return Some(told);
        }
        if let Some(Frame { remaining: 0, .. }) = self.open.innermost() {
            self.open.pop();
            return Some(Told::End);
        }
        self.next_row()
    }
}

impl<'a> RowTeller<'a> {
    // What a row tells of its pod; a number that stands for no type is told as that of a fixed size.
    fn told(&self, row: Row) -> Told<'a>
        ensures { thing result ≡ pod row.place row.total (row_content self.now.bytes.now row) }
    {
        let place = row.place;
        let total = row.total;
        let fixed = Told::Fixed {
            place,
            total,
            kind: row.kind,
            word: row.word,
        };
        let Ok(kind) = PodType::try_from(row.kind) else {
            return fixed;
        };
        match kind {
            PodType::Fixed(_) => fixed,
            PodType::Text => Told::Text {
                place,
                total,
                part: part(self.bytes, place as usize + 8, row.count as usize),
            },
            PodType::Raw => Told::Raw {
                place,
                total,
                part: part(self.bytes, place as usize + 8, row.count as usize),
            },
            PodType::Array => Told::ArrayOf {
                place,
                total,
                child: row.child,
                count: row.count,
            },
            PodType::Struct => Told::StructOpen { place, total },
            PodType::Object => {
                let DoubleWord { low, high } = DoubleWord::from(row.word);
                Told::ObjectOpen {
                    place,
                    total,
                    kind: low,
                    id: high,
                }
            }
            PodType::Pointer => Told::Pointer {
                place,
                total,
                kind: row.side,
                word: row.word,
            },
            PodType::Choice => Told::ChoiceOf {
                place,
                total,
                child: row.child,
                choice: row.side,
                flags: row.bits,
                count: row.count,
                default: row.word,
            },
        }
    }

    // The values of an array or choice.
    fn elements(&self, row: Row) -> Elements<'a>
        ensures { elements_left result ≡ row_elements self.now.bytes.now row }
    {
        let Ok(kind) = PodType::try_from(row.kind) else {
            return Elements::none(self.bytes);
        };
        let head = match kind {
            PodType::Array => 16,
            PodType::Choice => 24,
            _ => return Elements::none(self.bytes),
        };
        elements_at(self.bytes, row.child, row.count, row.place as usize + head)
    }

    // Tells the key and flags of the next row, where they are due, or else its pod.
    fn next_row(&mut self) -> Option<Told<'a>>
        requires none { elements_left self.old.values ≡ [] }
        requires pending { Pending self.old.«open» }
        ensures { YieldsFirstBy thing to_tell self.old result self.new }
    {
        let [row, rest @ ..] = self.rows else {
            return None;
        };
        if due(self.open.holding(), self.keyed) {
            self.keyed = true;
            return Some(Told::Property {
                key: row.key,
                flags: row.flags,
            });
        }
        self.rows = rest;
        Some(self.take(*row))
    }

    // Tells a row's pod, and goes on behind it or into it.
    fn take(&mut self, row: Row) -> Told<'a>
        ensures told { thing result ≡ pod row.place row.total (row_content self.old.bytes.now row) }
        ensures rest { to_tell self.new ≡ after_pod self.old row }
    {
        self.keyed = false;
        self.values = self.elements(row);
        let holds = self.open.holding();
        self.open.charge(past(holds, row.total as usize));
        if let Some(frame) = frame(row) {
            self.open.push(frame);
        }
        self.told(row)
    }
}

// Tells all that rows tell; answers how many things were told, counted up to the largest number of 64 bits.
pub fn tour_rows<'a, V: Visitor>(
    bytes: &'a [u8],
    rows: &'a [Row],
    visitor: &mut V,
) -> Result<usize, Stop>
    ensures keeps { V.lent visitor.new ≡ V.lent visitor.old }
    ensures leads { Toured (ended (lead V.rule (V.held visitor.old) (rows_tell bytes.now [] rows.now))) result (V.held visitor.new) }
    ensures alike { (t : Tree) (used : ℕ) → says bytes.now ≡ gave t used → rows.now ≡ rows_in t → Toured (tour V.rule (V.held visitor.old) (told_by bytes.now)) result (V.held visitor.new) }
{
    let teller = RowTeller {
        bytes,
        rows,
        open: Open::new(),
        keyed: false,
        values: Elements::none(bytes),
    };
    Ok(tell_all(teller, visitor)?)
}
