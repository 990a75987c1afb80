// Settable kinds: kinds with laying added, one value of any of them, and the order of their values.
#![tactic(auto)]

mod laying;
mod order;
mod settable;
mod value;

pub use laying::lay;
pub use order::at_most;
pub use settable::SettableFixedSizedPod;
pub use value::Value;
