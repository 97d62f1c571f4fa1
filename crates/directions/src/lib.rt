// Planning and checking in each of the four directions of a task.
#![tactic(auto)]

ghost use Rattle.std.specs.Prelude.{◌≡◌, ℕ};
ghost use Rattle.bfs.specs.Answers.{buffers};
ghost use Rattle.directions.specs.Agreement.{AcceptedNone, AlwaysAsSearched, DirectionsAgree, PlansTold};
ghost use Rattle.directions.specs.Directions.{number, Numbered};
ghost use Rattle.directions.specs.Planning.{AnsweredIn, CheckedIn};
ghost use Rattle.directions.specs.Questions.{RowsChecked, Searched};
ghost use Rattle.space.specs.Meaning.{Meaning};
ghost use Rattle.strips.specs.Duality.{in_order, space_in};
ghost use Rattle.strips.specs.Views.{task_in, task_of};

use bfs::{Link, Outcome, find_plan};
use closed::check_closed;
use fault::Fault;
use space::Space;
use strips::{Backward, Forward, Mirror, Task, TaskView};

// In which space of a task a plan is searched.
#[derive(Clone, Copy, PartialEq, Eq, Debug)]
pub enum Direction {
    // from the state to the goal
    Forward,
    // from the goal back to the state
    Backward,
    // forward on the dual task: the mirror over backward
    DualForward,
    // backward on the dual task: the mirror over forward
    DualBackward,
}

// The directions are numbered in this order, from 0.
impl TryFrom<usize> for Direction {
    type Error = Fault;

    ghost try_from_gives = { Numbered };

    fn try_from(number: usize) -> Result<Direction, Fault> {
        match number {
            0 => Ok(Direction::Forward),
            1 => Ok(Direction::Backward),
            2 => Ok(Direction::DualForward),
            3 => Ok(Direction::DualBackward),
            _ => Err(Fault::NoSuchDirection),
        }
    }
}

// What can be asked of any space of sets of facts.
trait Question {
    type Answer;

    // what the answer is for a space of this meaning, and what the question then holds
    ghost answered: { Meaning ℕ → Self → Self → Self.Answer → Type 0 };

    // Puts the question to a space.
    fn ask<S: Space<Node = u64>>(&mut self, space: &S) -> Self::Answer
        ensures { answered (S.Space.meaning space.now) self.old self.new result };
}

// A search for a plan, in lent tables and a lent plan slice.
#[derive(Drop)]
struct Search<'a> {
    nodes: &'a mut [u64],
    links: &'a mut [Link],
    plan: &'a mut [u16],
}

impl Question for Search<'_> {
    type Answer = Result<Outcome, Fault>;

    ghost answered = { Searched };

    fn ask<S: Space<Node = u64>>(&mut self, space: &S) -> Result<Outcome, Fault> {
        find_plan(space, self.nodes, self.links, self.plan)
    }
}

// A check of lent rows.
#[derive(Drop)]
struct Check<'a> {
    rows: &'a [u64],
}

impl Question for Check<'_> {
    type Answer = Result<(), Fault>;

    ghost answered = { RowsChecked };

    fn ask<S: Space<Node = u64>>(&mut self, space: &S) -> Result<(), Fault> {
        check_closed(space, self.rows)
    }
}

// Puts a question to the space of a direction.
fn ask_in<Q: Question>(direction: Direction, task: TaskView<'_>, question: &mut Q) -> Q::Answer
    ensures { Q.answered (space_in (task_of task.entry) (number direction)) question.old question.new result }
{
    match direction {
        Direction::Forward => question.ask(&Forward { task }),
        Direction::Backward => question.ask(&Backward { task }),
        Direction::DualForward => {
            let inner = Backward { task };
            question.ask(&Mirror { inner })
        }
        Direction::DualBackward => {
            let inner = Forward { task };
            question.ask(&Mirror { inner })
        }
    }
}

// Brings the moves of a plan, as the search in a direction found them, into the task's order.
fn put_in_order(direction: Direction, plan: &mut [u16])
    ensures { plan.new ≡ in_order (number direction) plan.old }
{
    match direction {
        Direction::Forward | Direction::DualBackward => {}
        Direction::Backward | Direction::DualForward => plan.reverse(),
    }
}

// Plans a task in a direction.
//
// The answer is the search's in that direction's space, with the plan in the task's order; where there is no such direction it is a
// refusal, and the buffers stay as they were.
#[tactic(auto, using(crate::proofs::Agreement::plan_answered))]
pub fn plan_in(
    direction: usize,
    task: &Task,
    nodes: &mut [u64],
    links: &mut [Link],
    plan: &mut [u16],
) -> Result<Outcome, Fault>
    ensures { AnsweredIn (task_in task.now) direction (buffers nodes.old links.old plan.old) (buffers nodes.new links.new plan.new) result }
{
    let direction = Direction::try_from(direction)?;
    let mut search = Search {
        nodes,
        links,
        plan: &mut *plan,
    };
    let outcome = ask_in(direction, task.view(), &mut search)?;
    if let Outcome::Plan((length, _)) = outcome {
        put_in_order(direction, &mut plan[..length]);
    }
    Ok(outcome)
}

// Whether the rows are a closed set in a direction of a task, or where they first break the rule.
#[tactic(auto, using(crate::proofs::Agreement::check_answered))]
pub fn check_in(direction: usize, task: &Task, rows: &[u64]) -> Result<(), Fault>
    ensures { CheckedIn (task_in task.now) direction rows.now result }
{
    ask_in(
        Direction::try_from(direction)?,
        task.view(),
        &mut Check { rows },
    )
}

// Two plannings of one task that are not refused either both say none, or both show plans of equal length, whatever the directions and
// the tables.
#[tactic(auto, using(crate::proofs::Agreement::directions_agree_lem))]
pub fn directions_agree()
    ensures { DirectionsAgree }
{}

// What is shown is a plan of the task, and no plan is shorter; where none is said, or a closed set is accepted, there is no plan.
#[tactic(auto, using(crate::proofs::Agreement::plans_told))]
pub fn answers_tell_of_the_task()
    ensures told { PlansTold }
    ensures accepted { AcceptedNone }
{}

// An answer in a direction is the search's in that direction's space, with a plan shown in the task's order; and the check in a direction
// accepts the rows used where planning in it says none.
#[tactic(auto, using(crate::proofs::Agreement::as_searched))]
pub fn answers_are_as_searched()
    ensures { AlwaysAsSearched }
{}
