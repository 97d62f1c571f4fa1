// Breadth-first search over any space.
#![tactic(auto)]

ghost use Rattle.bfs.specs.Answers.{Answered, buffers};
ghost use Rattle.bfs.specs.Exactness.{AnswersExact};
ghost use Rattle.space.specs.Meaning.{Meaning};

mod table;

use fault::Fault;
use space::Space;
pub use table::Link;
use table::NodeTable;

// The most rows that a search fills.
pub const MAX_ROWS: usize = 65_536;

// What a search finds.
#[derive(Clone, Copy, PartialEq, Eq, Debug)]
pub enum Outcome {
    // a shortest plan: its length and the rows used
    Plan((usize, usize)),
    // no plan: the rows used, which are a closed set
    NoPlan(usize),
}

// Finds a shortest list of moves from the space's start to a target.
//
// The tables get the nodes that are no farther than the nearest target, or all reachable ones where there is no reachable target, in
// rows by rising distance. The answer is the plan's length, with its moves in the first places of the plan slice, and the rows used;
// or no plan, and the rows used, which are then a closed set. It is refused where the nodes are more than the rows (the smaller
// table's length, at most MAX_ROWS) or the plan is longer than its slice. What is not filled stays as it was.
pub fn find_plan<S: Space>(
    space: &S,
    nodes: &mut [S::Node],
    links: &mut [Link],
    plan: &mut [u16],
) -> Result<Outcome, Fault>
    ensures { Answered (S.Space.meaning space.now) (buffers nodes.old links.old plan.old) (buffers nodes.new links.new plan.new) result }
{
    let mut table = NodeTable::new(nodes, links);
    let target = table.explore(space)?;
    let used = table.used();
    let Some(row) = target else {
        return Ok(Outcome::NoPlan(used));
    };
    let length = table.read_back(row, plan)?;
    Ok(Outcome::Plan((length, used)))
}

// Every answer that meets the search's contract is exact, in every space: the space, the capacity and the places alone decide it.
pub fn answers_are_exact<N>()
    ensures { (m : Meaning N) → AnswersExact m }
{}
