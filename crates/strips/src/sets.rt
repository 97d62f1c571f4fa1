// Sets of facts as words: bit i stands for fact i.
ghost use Rattle.std.specs.Prelude.{◌≡◌, Decides, ℕ, ◌^◌, ◌<◌, ◌≤◌, true, false, not, ◌&&◌, MatchOption, nat_lt, nat_le};
ghost use Rattle.strips.specs.Sets.{complement, full, has, Within, within, without};

use crate::MAX_FACTS;

// The facts of one set that are not in the other.
#[tactic(auto, using(crate::proofs::Words::and_not, crate::proofs::Words::has_without))]
pub fn difference(a: u64, b: u64) -> u64
    ensures value { result ≡ without a b }
    ensures facts { (i : ℕ) → has result i ≡ (has a i && not (has b i)) }
{
    a & !b
}

// Whether every fact of the first set is in the second.
#[tactic(auto, using(crate::proofs::Words::within_decides), unfolding(crate::specs::Sets::within))]
pub fn is_within(a: u64, b: u64) -> bool
    ensures value { result ≡ within a b }
    ensures facts { Decides result (Within a b) }
{
    a & b == a
}

// The lowest fact of a set, where it has one.
#[tactic(auto, using(crate::proofs::Words::lowest_is))]
pub fn lowest(set: u64) -> Option<usize>
    ensures { MatchOption result ((j : ℕ) → has set j ≡ false) (λ i. (i < 64) × (has set i ≡ true) × ((j : ℕ) → j < i → has set j ≡ false)) }
{
    (set != 0).then_some(set.trailing_zeros() as usize)
}

// How many facts a task has: from 1 to 64.
#[derive(Clone, Copy)]
pub(crate) struct FactCount {
    pub(crate) n: u8,
    ghost few: { (1 ≤ n) × (n ≤ 64) },
}

impl FactCount {
    // So many facts, or none where a task cannot have so many.
    pub(crate) fn new(n: u8) -> Option<FactCount>
        ensures { MatchOption result ((nat_le 1 n && nat_le n 64) ≡ false) (λ c. (c.n ≡ n) × ((nat_le 1 n && nat_le n 64) ≡ true)) }
    {
        if n == 0 || usize::from(n) > MAX_FACTS {
            return None;
        }
        Some(FactCount { n })
    }

    // All the facts.
    #[tactic(auto, using(crate::proofs::Words::full_64, crate::proofs::Words::has_full))]
    pub(crate) fn all(self) -> u64
        ensures value { result ≡ full self.n }
        ensures facts { (i : ℕ) → has result i ≡ nat_lt i self.n }
    {
        u64::MAX >> (64 - self.n)
    }

    // Whether the set has no other facts.
    #[tactic(auto, using(crate::proofs::Words::covers_decides))]
    pub(crate) fn covers(self, set: u64) -> bool
        ensures value { result ≡ nat_lt set (2 ^ self.n) }
        ensures facts { Decides result ((i : ℕ) → self.n ≤ i → has set i ≡ false) }
    {
        set <= self.all()
    }

    // The facts that are not in the set.
    pub(crate) fn opposite(self, set: u64) -> u64
        ensures value { result ≡ complement self.n set }
        ensures facts { (i : ℕ) → has result i ≡ (nat_lt i self.n && not (has set i)) }
    {
        difference(self.all(), set)
    }
}
