// Tasks, with actions that are lent and with actions of their own.
ghost use Rattle.std.specs.Prelude.{◌≡◌, true, length};
ghost use Rattle.strips.specs.Tasks.{fine, fine_actions};

use crate::MAX_ACTIONS;
use crate::action::Action;
use crate::sets::FactCount;
use arrayvec::ArrayVec;

// A task whose actions are lent.
#[derive(Clone, Copy)]
pub struct TaskView<'a> {
    pub(crate) facts: FactCount,
    pub(crate) actions: &'a [Action],
    pub(crate) state: u64,
    pub(crate) goal: u64,
    ghost ok: { fine (record { facts = facts.n; actions = actions.now; state = state; goal = goal }) ≡ true },
}

// A task: the count of facts, the actions in their order, the facts that hold now, and those that are to hold.
#[derive(Drop)]
pub struct Task {
    facts: FactCount,
    actions: ArrayVec<Action, MAX_ACTIONS>,
    state: u64,
    goal: u64,
    ghost ok: { fine (record { facts = facts.n; actions = actions.items; state = state; goal = goal }) ≡ true },
}

// Whether the sets of all actions have only these facts.
fn are_of(facts: FactCount, actions: &[Action]) -> bool
    ensures { result ≡ fine_actions facts.n actions.now }
{
    actions.iter().all(|action| action.is_of(facts))
}

// Whether there are at most 256 actions, and no set has a fact at or past the count.
fn is_task(facts: FactCount, actions: &[Action], state: u64, goal: u64) -> bool
    ensures { result ≡ fine (record { facts = facts.n; actions = actions.now; state = state; goal = goal }) }
{
    actions.len() <= MAX_ACTIONS
        && facts.covers(state)
        && facts.covers(goal)
        && are_of(facts, actions)
}

impl<'a> TaskView<'a> {
    ghost use Rattle.strips.specs.Views.{MadeBy, task_of};
    ghost use Rattle.strips.specs.Tasks.{action_from};

    // A task of 1 to 64 facts and at most 256 actions, none of whose sets has a fact at or past the count; or none where these are no task.
    pub fn new(facts: u8, actions: &'a [Action], state: u64, goal: u64) -> Option<TaskView<'a>>
        ensures { MadeBy task_of (record { facts = facts; actions = actions.now; state = state; goal = goal }) result }
    {
        let facts = FactCount::new(facts)?;
        if !is_task(facts, actions, state, goal) {
            return None;
        }
        Some(TaskView {
            facts,
            actions,
            state,
            goal,
        })
    }

    // The count of actions.
    pub(crate) fn count(&self) -> u16
        ensures { result ≡ length self.now.actions.now }
    {
        u16::try_from(self.actions.len()).unwrap()
    }

    // The action of a number, where the node is a set of the task's facts and the task has such an action.
    pub(crate) fn action_from(&self, node: u64, by: u16) -> Option<Action>
        ensures { result ≡ action_from (task_of self.now) node by }
    {
        if !self.facts.covers(node) {
            return None;
        }
        self.actions.get(usize::from(by)).copied()
    }
}

impl Task {
    ghost use Rattle.strips.specs.Views.{task_in, Made, task_of};

    // A task of 1 to 64 facts and at most 256 actions, none of whose sets has a fact at or past the count; or none where these are no task.
    pub fn new(facts: u8, actions: &[Action], state: u64, goal: u64) -> Option<Task>
        ensures { Made (record { facts = facts; actions = actions.now; state = state; goal = goal }) result }
    {
        let facts = TaskView::new(facts, actions, state, goal)?.facts;
        let actions = ArrayVec::try_from(actions).unwrap();
        Some(Task {
            facts,
            actions,
            state,
            goal,
        })
    }

    // The task, with its actions lent.
    pub fn view(&self) -> TaskView<'_>
        ensures { task_of result ≡ task_in self.now }
    {
        TaskView {
            facts: self.facts,
            actions: &self.actions,
            state: self.state,
            goal: self.goal,
        }
    }
}
