// The words of a sheet: names, marks, and which word a column allows.
#![tactic(auto)]

mod kind;
mod mark;
mod name;

pub use kind::Kind;
pub use mark::{Mark, NoMark, turn_mark};
pub use name::is_name;
