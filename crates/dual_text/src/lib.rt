// The dual of a sheet, as text.
#![tactic(auto)]

ghost use Rattle.dual_text.specs.Texts.{IsWrittenBack, NamesGood, IsReadBack};
ghost use Rattle.dual_text.specs.Dual.{AsLong, DualRead, Twice};

mod turn;
mod writer;

pub use writer::write_dual;

// An accepted text is the text of the task that is read from it, with its names.
#[tactic(auto, using(crate::proofs::WrittenBack::written_back))]
pub fn texts_are_written_back()
    ensures { IsWrittenBack }
{}

// The names of an accepted text are names, all different.
pub fn names_are_good()
    ensures { NamesGood }
{}

// The text of any task with good names, of at most 65,535 bytes, gives back the task and the names.
pub fn texts_are_read_back()
    ensures { IsReadBack }
{}

// The dual text is as long as the text.
#[tactic(auto, using(crate::proofs::Lengths::as_long))]
pub fn duals_are_as_long()
    ensures { AsLong }
{}

// What is read from the dual text is the dual of what is read from the text.
#[tactic(auto, using(crate::proofs::DualText::dual_read))]
pub fn duals_are_read()
    ensures { DualRead }
{}

// Dualising twice gives the first text, byte by byte.
#[tactic(auto, using(crate::proofs::DualText::twice))]
pub fn dualising_twice_gives_the_text()
    ensures { Twice }
{}
