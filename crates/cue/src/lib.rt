// A cue held over lent bytes and a lent table of rows: looked at, set in place, reread and toured.
#![tactic(auto)]

mod calls;
mod choosing;
mod elements;
mod held;
mod opened;
mod parties;
mod pod;
mod setting;

pub use held::Cue;
pub use tours::check;
