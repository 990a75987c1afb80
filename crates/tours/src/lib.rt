// What a cue tells, to any visitor, from its bytes and from its rows.
#![tactic(auto)]

mod begun;
mod byte_tour;
mod elements;
mod open;
mod parts;
mod row_tour;
mod seek;
mod starts;
mod stop;
mod table;
mod telling;
mod told;
mod value_visitor;
mod visitor;

pub use byte_tour::tour_bytes;
pub use row_tour::tour_rows;
pub use seek::{Search, Seek};
pub use stop::Stop;
pub use table::{check, fill};
pub use told::Told;
pub use value_visitor::ValueVisitor;
pub use visitor::Visitor;
