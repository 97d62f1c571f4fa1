// A text as lines of words: which texts are lines, and where a byte is wrong.
#![tactic(auto)]

mod reader;

pub use reader::check_lines;
