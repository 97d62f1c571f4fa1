// Hoppers that are filled, emptied and poured into one another: a search space.
#![tactic(auto)]

ghost use Rattle.hoppers.specs.Moves.{EffectsAlways, ForbiddenAlways, Numbered};
ghost use Rattle.hoppers.specs.Setting.{NodesAsTold};

mod hopper_space;
mod levels;
mod moves;
mod setting;

pub use levels::Levels;
pub use moves::Move;
pub use setting::Hoppers;

// Of h hoppers, move i fills hopper i, move h + i empties it, and move 2h + i·h + j pours i into j; there are no others.
pub fn moves_are_numbered()
    ensures { Numbered }
{}

// Filling makes a hopper full, emptying makes it empty, and pouring goes on until the one is empty or the other full, with nothing lost.
#[tactic(auto, using(crate::proofs::Effects::effects))]
pub fn moves_do_as_told()
    ensures { EffectsAlways }
{}

// Forbidden are filling a full hopper, emptying or pouring an empty one, pouring into a full one, and pouring one into itself.
pub fn moves_are_forbidden_as_told()
    ensures { ForbiddenAlways }
{}

// The nodes of hoppers that were set up are the levels within the capacities, with 0 for the hoppers that there are not.
pub fn nodes_are_levels_within_capacities()
    ensures { NodesAsTold }
{}
