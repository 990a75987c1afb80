// What the bytes of a cue say, pod by pod, or where and why they are refused.
#![tactic(auto)]

mod body;
mod choices;
mod holding;
mod leaves;
mod reading;
mod rows;
mod types;

pub use choices::ChoiceType;
pub use holding::Holds;
pub use reading::{Surveyed, remaining, survey};
pub use rows::Row;
pub use types::PodType;
