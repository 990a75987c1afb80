// Why something is refused, and where.
#![tactic(auto)]

ghost use Rattle.std.specs.Prelude.{◌≡◌, Some};
ghost use Rattle.refusals.specs.Refusals.{number, refusal_text, sort_of};

use std::fmt;

// The reasons, with the values that go with them.
#[derive(Clone, Copy, Debug, PartialEq, Eq)]
pub enum Why {
    // of the bytes that are read
    Missing,
    OtherType,
    UnknownType,
    ChildSize,
    NoClosingZero,
    NotUtf8,
    TooShort,
    NoChildSize,
    PointerLength,
    PastContainer,
    ChoiceType,
    TooFewValues,
    TooDeep,
    TooLong,
    NoProperty,
    // with the key that was there
    OtherKey(u32),
    // of what a call is given
    NoParty,
    NotANumber,
    // of the state of a held cue or of a reader
    Shut,
    TooManyRows,
    NoRow,
    NotSettable,
    OtherKind,
    NoElement,
    Locked,
    Forbidden,
    // with the visitor's own number
    VisitorRefused(u32),
    EndTooEarly,
    NoElementLeft,
}

// The cases of the error type of crate libspa, and one for what that crate does not refuse.
#[derive(Clone, Copy, Debug, PartialEq, Eq)]
pub enum Sort {
    Nom,
    UnsupportedType,
    InvalidType,
    PropertyMissing,
    PropertyWrongKey,
    InvalidChoiceType,
    MissingChoiceValues,
    Unknown,
}

// Where a pod's header stands, and how deep the pod is; the outermost has depth 1.
#[derive(Clone, Copy, Debug, PartialEq, Eq)]
pub struct Spot {
    pub place: usize,
    pub depth: u32,
}

// A reason, and the spot of the pod that is refused.
#[derive(Clone, Copy, Debug, PartialEq, Eq)]
pub struct Refusal {
    pub why: Why,
    pub spot: Spot,
}

// The number by which a refusal is told.
impl From<Why> for u32 {
    ghost from_gives = { λ why r. r ≡ number why };

    fn from(why: Why) -> u32 {
        match why {
            Why::Missing => 1,
            Why::OtherType => 2,
            Why::UnknownType => 3,
            Why::ChildSize => 4,
            Why::NoClosingZero => 5,
            Why::NotUtf8 => 6,
            Why::TooShort => 7,
            Why::NoChildSize => 8,
            Why::PointerLength => 9,
            Why::PastContainer => 10,
            Why::ChoiceType => 11,
            Why::TooFewValues => 12,
            Why::TooDeep => 13,
            Why::TooLong => 14,
            Why::NoProperty => 15,
            Why::OtherKey(_) => 16,
            Why::NoParty => 17,
            Why::NotANumber => 18,
            Why::Shut => 21,
            Why::TooManyRows => 22,
            Why::NoRow => 23,
            Why::NotSettable => 24,
            Why::OtherKind => 25,
            Why::NoElement => 26,
            Why::Locked => 27,
            Why::Forbidden => 28,
            Why::VisitorRefused(_) => 29,
            Why::EndTooEarly => 30,
            Why::NoElementLeft => 31,
        }
    }
}

// The case of the crate's error type that a refusal is.
impl From<Why> for Sort {
    ghost from_gives = { λ why r. r ≡ sort_of why };

    fn from(why: Why) -> Sort {
        match why {
            Why::Missing | Why::OtherType | Why::ChildSize | Why::NoClosingZero | Why::NotUtf8 =>
                Sort::Nom,
            Why::UnknownType => Sort::InvalidType,
            Why::ChoiceType => Sort::InvalidChoiceType,
            Why::TooFewValues => Sort::MissingChoiceValues,
            Why::NoProperty => Sort::PropertyMissing,
            Why::OtherKey(_) => Sort::PropertyWrongKey,
            Why::VisitorRefused(_) => Sort::UnsupportedType,
            _ => Sort::Unknown,
        }
    }
}

impl Spot {
    // Where the outermost pod stands.
    pub const OUTERMOST: Spot = Spot { place: 0, depth: 1 };

    // The refusal of the pod that stands here.
    pub fn refuse(self, why: Why) -> Refusal
        ensures { result ≡ record { why = why; spot = self } }
    {
        Refusal { why, spot: self }
    }
}

// Number, place and depth.
impl fmt::Display for Refusal {
    ghost output = { λ e. Some (refusal_text e) };

    fn fmt<W: fmt::Write>(&self, f: &mut fmt::Formatter<W>) -> fmt::Result {
        let number = u32::from(self.why);
        let Spot { place, depth } = self.spot;
        write!(f, "refused {number} {place} {depth}")
    }
}
