// The spaces in which a plan is searched: forward, backward, and the mirror over any space of sets of facts.
ghost use Rattle.std.specs.Prelude.{◌≡◌, ℕ, ◌^◌, ◌≤◌, nat_lt};
ghost use Rattle.strips.specs.Tasks.{backward, forward, mirror};
ghost use Rattle.strips.specs.Views.{task_of};

use crate::sets::{FactCount, is_within};
use crate::task::TaskView;
use space::Space;

// From the state to the goal.
#[derive(Clone, Copy)]
pub struct Forward<'a> {
    pub task: TaskView<'a>,
}

// From the goal back to the state.
#[derive(Clone, Copy)]
pub struct Backward<'a> {
    pub task: TaskView<'a>,
}

// Any space of sets of facts, with each node shown as its complement.
#[derive(Clone, Copy)]
pub struct Mirror<S> {
    pub inner: S,
}

impl Space for Forward<'_> {
    type Node = u64;

    ghost meaning = { λ s. forward (task_of s.task) };

    fn is_node(&self, node: u64) -> bool {
        self.task.facts.covers(node)
    }

    fn start(&self) -> u64 {
        self.task.state
    }

    fn count(&self) -> u16 {
        self.task.count()
    }

    fn is_target(&self, node: u64) -> bool {
        self.task.facts.covers(node) && is_within(self.task.goal, node)
    }

    fn next(&self, node: u64, by: u16) -> Option<u64> {
        self.task.action_from(node, by)?.progressed(node)
    }

    fn same(&self, a: u64, b: u64) -> bool {
        a == b
    }
}

impl Space for Backward<'_> {
    type Node = u64;

    ghost meaning = { λ s. backward (task_of s.task) };

    fn is_node(&self, node: u64) -> bool {
        self.task.facts.covers(node)
    }

    fn start(&self) -> u64 {
        self.task.goal
    }

    fn count(&self) -> u16 {
        self.task.count()
    }

    fn is_target(&self, node: u64) -> bool {
        self.task.facts.covers(node) && is_within(node, self.task.state)
    }

    fn next(&self, node: u64, by: u16) -> Option<u64> {
        self.task.action_from(node, by)?.regressed(node)
    }

    fn same(&self, a: u64, b: u64) -> bool {
        a == b
    }
}

// A space whose nodes are exactly the sets of so many facts.
pub trait FactSpace: Space<Node = u64> {
    // the count of facts
    ghost facts: { Self → ℕ };

    // The count of facts.
    fn fact_count(&self) -> u8
        ensures value { result ≡ facts self.now }
        ensures few { (1 ≤ result) × (result ≤ 64) }
        ensures sets { (w : ℕ) → (Self.Space.meaning self.now).node w ≡ nat_lt w (2 ^ result) };
}

impl FactSpace for Forward<'_> {
    ghost facts = { λ s. s.task.facts.n };

    fn fact_count(&self) -> u8 {
        self.task.facts.n
    }
}

impl FactSpace for Backward<'_> {
    ghost facts = { λ s. s.task.facts.n };

    fn fact_count(&self) -> u8 {
        self.task.facts.n
    }
}

impl<S: FactSpace> Mirror<S> {
    // The count of facts.
    fn facts(&self) -> FactCount
        ensures { result.n ≡ S.FactSpace.facts self.now.inner }
    {
        FactCount {
            n: self.inner.fact_count(),
        }
    }
}

impl<S: FactSpace> Space for Mirror<S> {
    type Node = u64;

    ghost meaning = { λ s. mirror (S.FactSpace.facts s.inner) (S.Space.meaning s.inner) };

    fn is_node(&self, node: u64) -> bool {
        self.facts().covers(node)
    }

    fn start(&self) -> u64 {
        self.facts().opposite(self.inner.start())
    }

    fn count(&self) -> u16 {
        self.inner.count()
    }

    fn is_target(&self, node: u64) -> bool {
        let facts = self.facts();
        facts.covers(node) && self.inner.is_target(facts.opposite(node))
    }

    fn next(&self, node: u64, by: u16) -> Option<u64> {
        let facts = self.facts();
        if !facts.covers(node) {
            return None;
        }
        self.inner
            .next(facts.opposite(node), by)
            .map(|next| facts.opposite(next))
    }

    fn same(&self, a: u64, b: u64) -> bool {
        a == b
    }
}

impl<S: FactSpace> FactSpace for Mirror<S> {
    ghost facts = { λ s. S.FactSpace.facts s.inner };

    fn fact_count(&self) -> u8 {
        self.inner.fact_count()
    }
}
