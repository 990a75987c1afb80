// How a pod starts: what it tells first. What a survey has accepted is not tested again.
ghost use Rattle.std.specs.Prelude.{◌≡◌, ℕ, ◌+◌, ◌<◌, ◌≤◌, List, length, drop, MatchOption};
ghost use Rattle.kinds.specs.declared.kind.Kind.{Kind as Sort};
ghost use Rattle.pods.specs.declared.choices.ChoiceType.{ChoiceType as Choosing};
ghost use Rattle.pods.specs.Trees.{Forest, Tree, array, choice, fixed, leaf, object, pointer, raw, struct, text};
ghost use Rattle.format.specs.Layout.{Laid};
ghost use Rattle.tours.specs.declared.starts.Then.TheVariants.{On as AndOn};
ghost use Rattle.tours.specs.Starts.{BeginsTree, Starts, pointer_kind, values_in};

use crate::begun::Begun;
use crate::elements::Elements;
use crate::parts::part;
use crate::told::Told;
use kinds::Kind;
use pods::{ChoiceType, Holds, PodType};
use words::{padded, two_words};

// What comes after the first thing of a pod: the next pod, the values of this one, or the pods in it.
#[derive(Clone, Copy)]
pub enum Then<'a> {
    On,
    Values(Elements<'a>),
    Into(Holds),
}

#[derive(Clone, Copy)]
pub struct Start<'a> {
    pub told: Told<'a>,
    pub total: usize,
    pub then: Then<'a>,
}

impl<'a> Start<'a> {
    // A pod of so many bytes, behind which the next one stands.
    fn on(told: Told<'a>, total: usize) -> Self
        ensures { result ≡ record { told = told.entry; total = total; then = AndOn } }
    {
        Start {
            told,
            total,
            then: Then::On,
        }
    }
}

// How many values of `size` bytes a length has room for after `head` bytes.
pub fn values_in(len: usize, head: usize, size: usize) -> usize
    ensures { result ≡ values_in len head size }
{
    len.saturating_sub(head).checked_div(size).unwrap_or(0)
}

// A pointer is a number of eight bytes or of four.
fn pointer_kind(len: usize) -> Kind
    ensures { result ≡ pointer_kind len }
{
    if len == 16 { Kind::Long } else { Kind::Id }
}

impl<'a> Begun<'a> {
    // The bytes behind the header.
    fn body(&self) -> &'a [u8]
        ensures { result.now ≡ drop (self.now.at + 8) self.now.bytes.now }
    {
        &self.bytes[self.at + 8..]
    }

    // A text, without its closing zero.
    fn text(&self) -> Option<Start<'a>>
        ensures { (part : List ℕ) (size : ℕ) → Starts self.now (leaf (text part) size) result }
    {
        let kept = self.len.checked_sub(1)?;
        let total = padded(self.body(), self.len)? + 8;
        let told = Told::Text {
            place: self.at as u32,
            total: total as u32,
            part: part(self.bytes, self.at + 8, kept),
        };
        Some(Start::on(told, total))
    }

    fn raw(&self) -> Option<Start<'a>>
        ensures { (part : List ℕ) (size : ℕ) → Starts self.now (leaf (raw part) size) result }
    {
        let total = padded(self.body(), self.len)? + 8;
        let told = Told::Raw {
            place: self.at as u32,
            total: total as u32,
            part: part(self.bytes, self.at + 8, self.len),
        };
        Some(Start::on(told, total))
    }

    // A kind of fixed size.
    fn fixed(&self, kind: Kind) -> Option<Start<'a>>
        ensures { (word size : ℕ) → Starts self.now (leaf (fixed kind word) size) result }
    {
        let rest = self.body();
        let total = padded(rest, kind.size())? + 8;
        let word = kind.word(rest).ok()?;
        let told = Told::Fixed {
            place: self.at as u32,
            total: total as u32,
            kind: u32::from(kind),
            word,
        };
        Some(Start::on(told, total))
    }

    fn pointer(&self) -> Option<Start<'a>>
        ensures { (type word size : ℕ) → Starts self.now (leaf (pointer type word) size) result }
    {
        let head = two_words(self.body())?;
        let word = pointer_kind(self.len).word(head.rest).ok()?;
        let told = Told::Pointer {
            place: self.at as u32,
            total: 24,
            kind: head.first,
            word,
        };
        Some(Start::on(told, 24))
    }

    fn array(&self) -> Option<Start<'a>>
        ensures { (k : Sort) (words : List ℕ) (size : ℕ) → Starts self.now (leaf (array k words) size) result }
    {
        let head = two_words(self.body())?;
        let child = Kind::try_from(head.second).ok()?;
        let size = child.size();
        let count = values_in(self.len, 8, size);
        let used = padded(head.rest, count * size)?;
        Some(Start {
            told: Told::ArrayOf {
                place: self.at as u32,
                total: (used + 16) as u32,
                child: head.second,
                count: count as u32,
            },
            total: used + 16,
            then: Then::Values(Elements {
                bytes: head.rest,
                kind: child,
                left: count,
            }),
        })
    }

    fn choice(&self) -> Option<Start<'a>>
        ensures { (c : Choosing) (flags : ℕ) (k : Sort) (words : List ℕ) (size : ℕ) → Starts self.now (leaf (choice c flags k words) size) result }
    {
        let head = two_words(self.body())?;
        let declared = two_words(head.rest)?;
        let choice = ChoiceType::try_from(head.first).ok()?;
        let child = Kind::try_from(declared.second).ok()?;
        let count = values_in(self.len, 16, declared.first as usize);
        let used = padded(declared.rest, count * child.size())?;
        let default = child.word(declared.rest).ok()?;
        if count < choice.needed() {
            return None;
        }
        let left = choice.used(count);
        Some(Start {
            told: Told::ChoiceOf {
                place: self.at as u32,
                total: (used + 24) as u32,
                child: declared.second,
                choice: head.first,
                flags: choice.kept(head.second),
                count: left as u32,
                default,
            },
            total: used + 24,
            then: Then::Values(Elements {
                bytes: declared.rest,
                kind: child,
                left,
            }),
        })
    }

    // All bytes of a container, if there are as many as its header declares.
    fn held(&self) -> Option<usize>
        ensures { MatchOption result (length self.now.bytes.now < self.now.len) (λ n. (n ≡ self.now.len + 8) × (self.now.len ≤ length self.now.bytes.now)) }
    {
        if self.len > self.bytes.len() {
            return None;
        }
        Some(self.len + 8)
    }

    fn structure(&self) -> Option<Start<'a>>
        ensures { (f : Forest) → Starts self.now (struct f) result }
    {
        let total = self.held()?;
        Some(Start {
            told: Told::StructOpen {
                place: self.at as u32,
                total: total as u32,
            },
            total,
            then: Then::Into(Holds::Fields),
        })
    }

    fn object(&self) -> Option<Start<'a>>
        ensures { (type id : ℕ) (f : Forest) → Starts self.now (object type id f) result }
    {
        let named = two_words(self.body())?;
        let total = self.held()?;
        Some(Start {
            told: Told::ObjectOpen {
                place: self.at as u32,
                total: total as u32,
                kind: named.first,
                id: named.second,
            },
            total,
            then: Then::Into(Holds::Properties),
        })
    }
}

// How the pod at `at` starts.
pub fn start_at(bytes: &[u8], at: usize) -> Option<Start<'_>>
    requires short { length bytes.now ≤ 65536 }
    requires within { at ≤ length bytes.now }
    ensures { (t : Tree) → Laid bytes.now t at → BeginsTree at t result }
{
    let head = two_words(&bytes[at..])?;
    let begun = Begun {
        bytes,
        at,
        len: head.first as usize,
    };
    match PodType::try_from(head.second).ok()? {
        PodType::Fixed(kind) => begun.fixed(kind),
        PodType::Text => begun.text(),
        PodType::Raw => begun.raw(),
        PodType::Array => begun.array(),
        PodType::Struct => begun.structure(),
        PodType::Object => begun.object(),
        PodType::Pointer => begun.pointer(),
        PodType::Choice => begun.choice(),
    }
}
