// Names that come again.
ghost use Rattle.std.specs.Prelude.{◌+◌, ◌≤◌, length};
ghost use Rattle.pieces.specs.Pieces.{pieces};
ghost use Rattle.sheet.specs.Repeats.{FirstRepeat, ToldApart};

use crate::grid::{Grid, HEAD_LINES};
use fault::Fault;
use pieces::{Pieces, piece_at};
use strips::MAX_ACTIONS;

// Refuses the first of so many pieces of a text, past the first ones, whose name an earlier one has. The name of a piece is its first
// word; the names that were met are kept at the front of a lent table.
fn check_apart<'a>(
    names: &mut [&'a [u8]],
    text: &'a [u8],
    sep: u8,
    past: usize,
    count: usize,
) -> Result<(), Fault>
    requires few { count ≤ length names.old }
    requires inside { count + past ≤ length (pieces sep text.now) }
    ensures { FirstRepeat sep text.now past count result }
{
    let named = Pieces::of(text, sep).skip(past).take(count);
    for (i, piece) in named.enumerate() {
        let name = piece_at(piece.bytes, b' ', 0);
        if names[..i].contains(&name) {
            return Err(Fault::RepeatedName(piece.start));
        }
        names[i] = name;
    }
    Ok(())
}

impl Grid<'_> {
    // Refuses the first name that comes again, among the facts or else among the actions.
    pub fn check_names(&self) -> Result<(), Fault>
        ensures { ToldApart self.now.text.now result }
    {
        let mut names: [&[u8]; MAX_ACTIONS] = [b""; MAX_ACTIONS];
        let first = piece_at(self.text, b'\n', 0);
        check_apart(&mut names, first, b' ', 1, self.facts)?;
        check_apart(&mut names, self.text, b'\n', HEAD_LINES, self.actions)
    }
}
