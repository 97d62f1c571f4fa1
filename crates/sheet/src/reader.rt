// The sheet reader: a task's parts, read from the lent text.
ghost use Rattle.std.specs.Prelude.{◌≡◌, ◌+◌};
ghost use Rattle.sheet.specs.Grid.{fact_count, fact_name, action_count, action_name, word_start, line_start};
ghost use Rattle.sheet.specs.Reading.{Accepted, task_of};

use crate::actions::Actions;
use crate::grid::{Grid, HEAD_LINES};
use crate::sets::ones_in;
use fault::Fault;
use lines::check_lines;
use pieces::{Pieces, piece_at};

// A sheet's text that was accepted.
#[derive(Clone, Copy)]
pub struct Sheet<'a> {
    pub(crate) grid: Grid<'a>,
    ghost accepted: { ∥ Accepted grid.text.now ∥₁ },
}

// A name: a part of the text, and the offset where it begins there.
#[derive(Clone, Copy)]
pub struct Name<'a> {
    pub bytes: &'a [u8],
    pub offset: usize,
}

impl<'a> Sheet<'a> {
    ghost use Rattle.sheet.specs.Actions.{actions_left};
    ghost use Rattle.sheet.specs.Sheets.{SheetRead, NameOf, text_in};

    // Reads a text; refuses one that is no sheet, with the place.
    pub fn read(text: &'a [u8]) -> Result<Sheet<'a>, Fault>
        ensures { SheetRead text.now result }
    {
        check_lines(text)?;
        let grid = Grid::measure(text)?;
        grid.check_even()?;
        grid.check_words()?;
        grid.check_names()?;
        Ok(Sheet { grid })
    }

    // The number of facts.
    pub fn fact_count(&self) -> usize
        ensures { result ≡ fact_count (text_in self.now) }
    {
        self.grid.facts
    }

    // The number of actions.
    pub fn action_count(&self) -> usize
        ensures { result ≡ action_count (text_in self.now) }
    {
        self.grid.actions
    }

    // The facts that hold now.
    pub fn state(&self) -> u64
        ensures { result ≡ (task_of (text_in self.now)).state }
    {
        ones_in(piece_at(self.grid.text, b'\n', 1))
    }

    // The facts that are to hold.
    pub fn goal(&self) -> u64
        ensures { result ≡ (task_of (text_in self.now)).goal }
    {
        ones_in(piece_at(self.grid.text, b'\n', 2))
    }

    // The actions, one at a time.
    pub fn actions(&self) -> Actions<'a>
        ensures { actions_left result ≡ (task_of (text_in self.now)).actions }
    {
        let grid = &self.grid;
        let mut lines = Pieces::of(grid.text, b'\n');
        lines.nth(HEAD_LINES - 1);
        Actions {
            lines,
            left: grid.actions,
        }
    }

    // The name of a fact.
    pub fn fact_name(&self, i: usize) -> Option<Name<'a>>
        ensures { NameOf (fact_count (text_in self.now)) (fact_name (text_in self.now) i) (word_start (text_in self.now) 0 (i + 1)) i result }
    {
        if i >= self.fact_count() {
            return None;
        }
        let words = Pieces::of(piece_at(self.grid.text, b'\n', 0), b' ');
        words.skip(1).nth(i).map(|word| Name {
            bytes: word.bytes,
            offset: word.start,
        })
    }

    // The name of an action.
    pub fn action_name(&self, k: usize) -> Option<Name<'a>>
        ensures { NameOf (action_count (text_in self.now)) (action_name (text_in self.now) k) (line_start (text_in self.now) (k + 3)) k result }
    {
        if k >= self.action_count() {
            return None;
        }
        let lines = Pieces::of(self.grid.text, b'\n');
        lines.skip(HEAD_LINES).nth(k).map(|line| Name {
            bytes: piece_at(line.bytes, b' ', 0),
            offset: line.start,
        })
    }
}
