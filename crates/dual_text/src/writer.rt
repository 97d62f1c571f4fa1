// Writes the dual text into a caller's buffer.
ghost use Rattle.std.specs.Prelude.{◌≡◌, length};
ghost use Rattle.dual_text.specs.Dual.{DualWritten, dual_of_text};
ghost use Rattle.sheet.specs.Reading.{Accepted};

use crate::turn::turn_text;
use fault::Fault;
use sheet::Sheet;

// Writes the dual of an accepted text over a buffer of the text's length.
fn write_over(text: &[u8], part: &mut [u8])
    requires { length part.old ≡ length text.now }
    ensures dual { Accepted text.now → part.new ≡ dual_of_text text.now }
    ensures size { length part.new ≡ length part.old }
{
    part.copy_from_slice(text);
    turn_text(text, part);
}

// Writes the dual of a sheet at the front of a buffer: the text of the dual task, with the same names, in the same order and of the same
// length. Answers the length. A text that is no sheet is refused, and then a buffer that is shorter than the text; the buffer stays as it was.
pub fn write_dual(text: &[u8], out: &mut [u8]) -> Result<usize, Fault>
    ensures { DualWritten text.now out.old out.new result }
{
    Sheet::read(text)?;
    if out.len() < text.len() {
        return Err(Fault::ShortBuffer);
    }
    write_over(text, &mut out[..text.len()]);
    Ok(text.len())
}
