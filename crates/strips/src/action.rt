// Actions on sets of facts.
ghost use Rattle.std.specs.Prelude.{◌≡◌, Decides, ℕ, false, not, ◌&&◌, ◌||◌};
ghost use Rattle.std.specs.Bool.{then_some};
ghost use Rattle.strips.specs.Actions.{allowed, consistent, dual_action, progress, regress};
ghost use Rattle.strips.specs.Sets.{has, Within};
ghost use Rattle.strips.specs.Tasks.{fine_action};

use crate::sets::{FactCount, difference, is_within};

// What an action needs, adds and deletes.
#[derive(Clone, Copy, PartialEq, Eq, Debug, Default)]
pub struct Action {
    pub needs: u64,
    pub adds: u64,
    pub deletes: u64,
}

impl Action {
    // The action that needs nothing and changes nothing.
    pub const IDLE: Action = Action {
        needs: 0,
        adds: 0,
        deletes: 0,
    };

    // Whether the action is allowed in a state: all that it needs is there.
    pub fn is_allowed(self, state: u64) -> bool
        ensures value { result ≡ allowed self state }
        ensures facts { Decides result (Within self.needs state) }
    {
        is_within(self.needs, state)
    }

    // The state after the action: the added facts are joined, and then the deleted ones removed.
    #[tactic(auto, using(crate::proofs::Words::has_or))]
    pub fn after(self, state: u64) -> u64
        ensures value { result ≡ progress self state }
        ensures facts { (i : ℕ) → has result i ≡ ((has state i || has self.adds i) && not (has self.deletes i)) }
    {
        difference(state | self.adds, self.deletes)
    }

    // The state after the action, where it is allowed.
    pub(crate) fn progressed(self, state: u64) -> Option<u64>
        ensures { result ≡ then_some (allowed self state) (progress self state) }
    {
        self.is_allowed(state).then_some(self.after(state))
    }

    // Whether the action may be taken back from a node: it deletes none of its facts.
    #[tactic(auto, using(crate::proofs::Words::disjoint_decides))]
    pub fn is_consistent(self, node: u64) -> bool
        ensures value { result ≡ consistent self node }
        ensures facts { Decides result ((i : ℕ) → (has node i && has self.deletes i) ≡ false) }
    {
        node & self.deletes == 0
    }

    // The node before the action: the added facts are removed, and then the needed ones joined.
    #[tactic(auto, using(crate::proofs::Words::has_or))]
    pub fn before(self, node: u64) -> u64
        ensures value { result ≡ regress self node }
        ensures facts { (i : ℕ) → has result i ≡ ((has node i && not (has self.adds i)) || has self.needs i) }
    {
        difference(node, self.adds) | self.needs
    }

    // The node before the action, where it may be taken back.
    pub(crate) fn regressed(self, node: u64) -> Option<u64>
        ensures { result ≡ then_some (consistent self node) (regress self node) }
    {
        self.is_consistent(node).then_some(self.before(node))
    }

    // The dual action: it needs what this one deletes, adds the same, and deletes what this one needs.
    pub fn dual(self) -> Action
        ensures { result ≡ dual_action self }
    {
        Action {
            needs: self.deletes,
            adds: self.adds,
            deletes: self.needs,
        }
    }

    // Whether each of the action's sets has only these facts.
    pub(crate) fn is_of(self, facts: FactCount) -> bool
        ensures { result ≡ fine_action facts.n self }
    {
        facts.covers(self.needs) && facts.covers(self.adds) && facts.covers(self.deletes)
    }
}
