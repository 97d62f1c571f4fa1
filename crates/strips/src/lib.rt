// Planning over facts: sets of facts as words, actions, tasks, and the spaces in which a plan is searched.
#![tactic(auto)]

ghost use Rattle.strips.specs.Duality.{Backwards, DualFine, Duality, Forwards, Involution, Mirrored, Ordered, SameLength};
ghost use Rattle.strips.specs.Sets.{ByMembership};

mod action;
mod sets;
mod spaces;
mod task;

pub use action::Action;
pub use sets::{difference, is_within, lowest};
pub use spaces::{Backward, FactSpace, Forward, Mirror};
pub use task::{Task, TaskView};

// The most facts of a task.
pub const MAX_FACTS: usize = 64;

// The most actions of a task.
pub const MAX_ACTIONS: usize = 256;

// What the operations on sets mean, by membership of facts.
#[tactic(auto, using(crate::proofs::Words::by_membership))]
pub fn sets_go_by_membership()
    ensures { ByMembership }
{}

// A list is a plan exactly when it leads in the forward space from the state to a target.
#[tactic(auto, using(crate::proofs::Dual::forwards))]
pub fn plans_lead_forward()
    ensures { Forwards }
{}

// A list is a plan exactly when, read backwards, it leads in the backward space from the goal to a target.
#[tactic(auto, using(crate::proofs::Dual::backwards))]
pub fn plans_lead_backward_too()
    ensures { Backwards }
{}

// A list is a plan exactly when, read backwards, it is a plan of the dual task; and the dual of the dual is the task.
#[tactic(auto, using(crate::proofs::Dual::duality, crate::proofs::Dual::involution, crate::proofs::Dual::dual_fine))]
pub fn duality_holds()
    ensures duality { Duality }
    ensures involution { Involution }
    ensures fine { DualFine }
{}

// The mirror over backward means forward on the dual task, and the mirror over forward means backward on the dual task.
#[tactic(auto, using(crate::proofs::Dual::mirrored))]
pub fn mirrors_mean_the_dual()
    ensures { Mirrored }
{}

// A list leads to a target in a direction exactly when, in the task's order, it is a plan; of two directions either neither has such a
// list, or the shortest are equally long.
#[tactic(auto, using(crate::proofs::Dual::ordered, crate::proofs::Dual::same_length))]
pub fn directions_ask_one_question()
    ensures ordered { Ordered }
    ensures same { SameLength }
{}
