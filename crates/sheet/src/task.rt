// A task, read from a sheet.
ghost use Rattle.std.specs.Prelude.{◌≡◌};
ghost use Rattle.strips.specs.Views.{task_in};
ghost use Rattle.sheet.specs.Reading.{task_of};
ghost use Rattle.sheet.specs.Sheets.{TaskRead, text_in};

use crate::reader::Sheet;
use arrayvec::ArrayVec;
use fault::Fault;
use strips::{Action, MAX_ACTIONS, Task};

impl Sheet<'_> {
    // The task of the sheet.
    fn task(&self) -> Task
        ensures { task_in result ≡ task_of (text_in self.now) }
    {
        let facts = u8::try_from(self.grid.facts).unwrap();
        let mut actions = ArrayVec::<Action, MAX_ACTIONS>::new();
        for action in self.actions() {
            actions.push(action);
        }
        Task::new(facts, &actions, self.state(), self.goal()).unwrap()
    }
}

// Reads a task from a text; refuses a text that is no sheet, with the place.
pub fn read_task(text: &[u8]) -> Result<Task, Fault>
    ensures { TaskRead text.now result }
{
    let sheet = Sheet::read(text)?;
    Ok(sheet.task())
}
