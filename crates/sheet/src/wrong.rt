// Words that their column does not allow.
ghost use Rattle.sheet.specs.Shape.{Worded, WrongOf};

use crate::grid::{Grid, HEAD_LINES};
use fault::Fault;
use pieces::Pieces;
use words::Kind;

// Where the first word of a line begins that its column does not allow, if there is one.
#[tactic(auto, using(crate::proofs::Placing::piece_inside))]
fn wrong_in(line: &[u8], kind: Kind) -> Option<usize>
    ensures { WrongOf line.now kind result }
{
    for (column, word) in Pieces::of(line, b' ').enumerate() {
        if !kind.allows(column, word.bytes) {
            return Some(word.start);
        }
    }
    None
}

impl Grid<'_> {
    // Refuses the first word that its column does not allow.
    #[tactic(auto, using(crate::proofs::Placing::piece_inside))]
    pub fn check_words(&self) -> Result<(), Fault>
        ensures { Worded self.now.text.now result }
    {
        let lines = Pieces::of(self.text, b'\n').enumerate();
        for (row, line) in lines.take(self.actions + HEAD_LINES) {
            if let Some(offset) = wrong_in(line.bytes, Kind::of_row(row)) {
                return Err(Fault::WrongWord(line.start + offset));
            }
        }
        Ok(())
    }
}
