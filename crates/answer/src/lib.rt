// Planning on the text of a sheet.
#![tactic(auto)]

ghost use Rattle.bfs.specs.Answers.{buffers};
ghost use Rattle.answer.specs.Planned.{PlannedOn, ToldOfTheSheet};

mod written;

use bfs::{Link, Outcome};
use directions::plan_in;
use fault::Fault;
use sheet::read_task;
pub use written::{ROWS, report};

// The direction in which a text is planned: forward.
const FORWARD: usize = 0;

// Reads a sheet, and plans its task forward.
pub fn plan_text(
    text: &[u8],
    nodes: &mut [u64],
    links: &mut [Link],
    plan: &mut [u16],
) -> Result<Outcome, Fault>
    ensures { PlannedOn text.now (buffers nodes.old links.old plan.old) (buffers nodes.new links.new plan.new) result }
{
    let task = read_task(text)?;
    plan_in(FORWARD, &task, nodes, links, plan)
}

// What a planning shows is a plan of the sheet's task, and no plan is shorter; where it says none, there is no plan.
pub fn answers_tell_of_the_sheet()
    ensures { ToldOfTheSheet }
{}
