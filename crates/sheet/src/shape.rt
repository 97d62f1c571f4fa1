// How many lines, facts and actions a text has.
ghost use Rattle.sheet.specs.Shape.{Measured, Evened};

use crate::grid::{Grid, HEAD_LINES};
use fault::Fault;
use pieces::{Pieces, piece_at, piece_start, separators};
use strips::{MAX_ACTIONS, MAX_FACTS};

impl<'a> Grid<'a> {
    // Counts the facts and actions of a text; refuses one with too few or too many.
    pub fn measure(text: &'a [u8]) -> Result<Grid<'a>, Fault>
        ensures { Measured text.now result }
    {
        let lines = separators(text, b'\n');
        if lines < HEAD_LINES {
            return Err(Fault::SheetSize(text.len()));
        }
        let first = piece_at(text, b'\n', 0);
        let facts = separators(first, b' ');
        if facts == 0 {
            return Err(Fault::SheetSize(text.len()));
        }
        if facts > MAX_FACTS {
            return Err(Fault::SheetSize(piece_start(first, b' ', MAX_FACTS + 1)));
        }
        let actions = lines - HEAD_LINES;
        if actions > MAX_ACTIONS {
            return Err(Fault::SheetSize(piece_start(text, b'\n', MAX_ACTIONS + HEAD_LINES)));
        }
        Ok(Grid {
            text,
            facts,
            actions,
        })
    }

    // Refuses the first line with another number of words than the first line.
    pub fn check_even(&self) -> Result<(), Fault>
        ensures { Evened self.now.text.now result }
    {
        for line in Pieces::of(self.text, b'\n').take(self.actions + HEAD_LINES) {
            if separators(line.bytes, b' ') != self.facts {
                return Err(Fault::WordCount(line.start));
            }
        }
        Ok(())
    }
}
