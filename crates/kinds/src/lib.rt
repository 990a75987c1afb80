// The ten kinds of pods whose bodies have a fixed size.
#![tactic(auto)]

mod canonical;
mod kind;
mod numbers;
mod utils;

pub use canonical::CanonicalFixedSizedPod;
pub use kind::Kind;
pub use utils::{Fd, Fraction, Id, Rectangle};
