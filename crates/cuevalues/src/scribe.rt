// Writes a value as a line of text.
ghost use Rattle.std.specs.Prelude.{◌≡◌, false, [], IfOk};
ghost use Rattle.tours.specs.Told.{thing};
ghost use Rattle.cuevalues.specs.Pages.{Laid, text_of};
ghost use Rattle.cuevalues.specs.Parts.{said_part};
ghost use Rattle.cuevalues.specs.Values.{Written, bracket as bracket_of, follows as follows_of, joins as joins_of, leaves as leaves_of, separator as separator_of, thing_text, writes};

use crate::page::{Full, Page};
use crate::part::{Part, name, value};
use std::alloc::{AllocError, Global};
use tours::{Told, Visitor};

// The text so far, whether a semicolon is due before what comes next, and how many values of an array or choice are to come.
#[derive(Drop)]
pub struct Scribe {
    page: Page,
    joined: bool,
    left: u32,
}

impl Visitor for Scribe {
    ghost Held = { Written };

    ghost held = { λ s. record { text = text_of s.page; joined = s.joined; left = s.left } };

    ghost rule = { writes };

    fn visit(&mut self, told: Told<'_>) -> Result<(), u32> {
        let start = self.page.len();
        if let Err(full) = self.say(told) {
            self.page.truncate(start);
            return Err(u32::from(full));
        }
        self.joined = joins(self.joined, told);
        self.left = leaves(self.left, told);
        Ok(())
    }
}

impl Scribe {
    pub fn new(heap: Global) -> Result<Self, AllocError>
        ensures { IfOk result (λ s. (text_of s.page ≡ []) × (s.joined ≡ false) × (s.left ≡ 0)) }
    {
        let page = Page::new(heap)?;
        Ok(Scribe {
            page,
            joined: false,
            left: 0,
        })
    }

    pub fn text(&self) -> &[u8]
        ensures { result.now ≡ text_of self.now.page }
    {
        self.page.text()
    }

    // Adds the text of a told thing.
    fn say(&mut self, told: Told<'_>) -> Result<(), Full>
        ensures says { Laid (text_of self.old.page) (thing_text self.old.joined self.old.left (thing told.entry)) result (text_of self.new.page) }
        ensures same { (self.new.joined ≡ self.old.joined) × (self.new.left ≡ self.old.left) }
    {
        match told {
            Told::Fixed { kind, word, .. } => {
                self.page.lay_all(&[
                    separator(self.joined),
                    name(kind),
                    Part::Words(":"),
                    value(kind, word),
                ])
            }
            Told::Text { part, .. } => {
                self.page.lay_all(&[
                    separator(self.joined),
                    Part::Words("text:"),
                    Part::Hex(part),
                ])
            }
            Told::Raw { part, .. } => {
                self.page.lay_all(&[separator(self.joined), Part::Words("raw:"), Part::Hex(part)])
            }
            Told::ArrayOf { child, count, .. } => {
                self.page.lay_all(&[
                    separator(self.joined),
                    Part::Words("array:"),
                    name(child),
                    bracket(count),
                ])
            }
            Told::ChoiceOf {
                child,
                choice,
                flags,
                count,
                ..
            } => self.page.lay_all(&[
                separator(self.joined),
                Part::Words("choice:"),
                name(child),
                Part::Words(":"),
                Part::Decimal(u64::from(choice)),
                Part::Words(":"),
                Part::Decimal(u64::from(flags)),
                bracket(count),
            ]),
            Told::Pointer { kind, word, .. } => self.page.lay_all(&[
                separator(self.joined),
                Part::Words("pointer:"),
                Part::Decimal(u64::from(kind)),
                Part::Words(":"),
                Part::Decimal(word),
            ]),
            Told::StructOpen { .. } => self
                .page
                .lay_all(&[separator(self.joined), Part::Words("struct(")]),
            Told::ObjectOpen { kind, id, .. } => self.page.lay_all(&[
                separator(self.joined),
                Part::Words("object:"),
                Part::Decimal(u64::from(kind)),
                Part::Words(":"),
                Part::Decimal(u64::from(id)),
                Part::Words("("),
            ]),
            Told::Element { kind, word } => {
                self.page.lay_all(&[value(kind, word), follows(self.left)])
            }
            Told::Property { key, flags } => self.page.lay_all(&[
                separator(self.joined),
                Part::Decimal(u64::from(key)),
                Part::Words(":"),
                Part::Decimal(u64::from(flags)),
                Part::Words("="),
            ]),
            Told::End => self.page.lay_all(&[Part::Words(")")]),
        }
    }
}

// A semicolon where one is due.
fn separator<'a>(joined: bool) -> Part<'a>
    ensures { said_part result ≡ separator_of joined }
{
    Part::Words(if joined { ";" } else { "" })
}

// The bracket before so many values, shut at once where there are none.
fn bracket<'a>(count: u32) -> Part<'a>
    ensures { said_part result ≡ bracket_of count }
{
    Part::Words(if count == 0 { "[]" } else { "[" })
}

// What follows a value, where `left` values were to come with it.
fn follows<'a>(left: u32) -> Part<'a>
    ensures { said_part result ≡ follows_of left }
{
    Part::Words(if left > 1 { "," } else { "]" })
}

// Whether a semicolon is due after a told thing.
fn joins(joined: bool, told: Told<'_>) -> bool
    ensures { result ≡ joins_of joined (thing told.entry) }
{
    match told {
        Told::StructOpen { .. } | Told::ObjectOpen { .. } | Told::Property { .. } => false,
        Told::Element { .. } => joined,
        _ => true,
    }
}

// How many values are to come after a told thing.
fn leaves(left: u32, told: Told<'_>) -> u32
    ensures { result ≡ leaves_of left (thing told.entry) }
{
    match told {
        Told::ArrayOf { count, .. } | Told::ChoiceOf { count, .. } => count,
        Told::Element { .. } => left.saturating_sub(1),
        _ => left,
    }
}
