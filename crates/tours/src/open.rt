// The containers that a tour is in.
use pods::Holds;
use std::marker::Model;

// An open container: what it holds, and how many of its bytes are still to come.
#[derive(Clone, Copy)]
pub struct Frame {
    pub holds: Holds,
    pub remaining: usize,
}

// At most 32 of them, seen as a list with the innermost first.
// Kept: the library has no heap, so that the frames are an array with a length beside it.
#[derive(Drop)]
pub struct Open {
    frames: [Frame; 32],
    len: usize,
}

impl Model for Open {
    ghost use Rattle.std.specs.Prelude.{List, ◌≤◌};
    ghost use Rattle.tours.specs.declared.open.Frame.{Frame};

    ghost Value = { List Frame };

    ghost use Rattle.tours.specs.Stack.{stack};

    ghost view = { λ o. stack o.frames o.len };

    ghost invariant = { λ o. o.len ≤ 32 };
}

mod stack;

pub use stack::{due, past};
