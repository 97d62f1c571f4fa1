// The actions of a sheet, one at a time.
ghost use Rattle.std.specs.List.{All};
ghost use Rattle.std.proofs.Props.{props};
ghost use Rattle.sheet.specs.Left.{lines_left};
ghost use Rattle.sheet.specs.Shape.{GoodMarks};

use crate::sets::action_in;
use pieces::Pieces;
use strips::Action;

// What is left of a sheet's actions: the next so many lines.
#[derive(Clone, Copy)]
pub struct Actions<'a> {
    pub(crate) lines: Pieces<'a>,
    pub(crate) left: usize,
    ghost good: { All GoodMarks (lines_left lines left) } by { Prim.hlevel props },
}

impl<'a> Iterator for Actions<'a> {
    ghost use Rattle.std.specs.Iterator.{YieldsFirst, item_count};
    ghost use Rattle.sheet.specs.Actions.{actions_left};

    type Item = Action;

    ghost next_gives = { YieldsFirst actions_left };

    ghost remaining = { item_count actions_left };

    // Reads the next action; None where none is left.
    fn next(&mut self) -> Option<Action> {
        if self.left == 0 {
            return None;
        }
        self.left -= 1;
        let line = self.lines.next()?;
        Some(action_in(line.bytes))
    }
}
