// The sheet: a task as text.
#![tactic(auto)]

ghost use Rattle.sheet.specs.Exactness.{AlwaysOnce, AlwaysPlaced, AlwaysTask};

mod actions;
mod grid;
mod names;
mod reader;
mod sets;
mod shape;
mod task;
mod wrong;

pub use actions::Actions;
pub use reader::{Name, Sheet};
pub use task::read_task;

// No text is both accepted and refused, and no text is refused in two ways.
#[tactic(auto, using(crate::proofs::Once::read_once))]
pub fn texts_are_read_in_one_way()
    ensures { AlwaysOnce }
{}

// What is read from an accepted text is a task.
#[tactic(auto, using(crate::proofs::Fineness::task_fine))]
pub fn accepted_texts_are_tasks()
    ensures { AlwaysTask }
{}

// Lines and words stand in the text where they are said to begin.
#[tactic(auto, using(crate::proofs::Placing::placed))]
pub fn places_are_where_words_stand()
    ensures { AlwaysPlaced }
{}
