// Values that have a type of their own.

// An enumerated value.
#[derive(Clone, Copy, PartialEq, Eq, Debug)]
pub struct Id(pub u32);

// A file descriptor.
#[derive(Clone, Copy, PartialEq, Eq, Debug)]
pub struct Fd(pub i64);

#[derive(Clone, Copy, PartialEq, Eq, Debug)]
pub struct Rectangle {
    pub width: u32,
    pub height: u32,
}

#[derive(Clone, Copy, PartialEq, Eq, Debug)]
pub struct Fraction {
    pub num: u32,
    pub denom: u32,
}
