// Writes the dual text over a copy of the text, line by line and word by word.
ghost use Rattle.std.specs.Prelude.{◌≡◌, ◌<◌, [], ◌∷◌, length, if◌then◌else◌, codes};
ghost use Rattle.lines.specs.Grammar.{joined, lines_text};
ghost use Rattle.words.specs.Words.{holds};
ghost use Rattle.sheet.specs.Grid.{line_count, line_at};
ghost use Rattle.sheet.specs.Shape.{GoodMarks};
ghost use Rattle.sheet.specs.Reading.{Accepted};
ghost use Rattle.dual_text.specs.Turned.{turned_marks, turned_flags, turned_row, turned_rows, Flags};

use pieces::{Pieces, piece_at, separators};
use words::{Kind, turn_mark};

// Turns the marks of an action's line; the part is a copy of the line.
fn turn_marks(line: &[u8], part: &mut [u8])
    requires { length part.old ≡ length line.now }
    ensures turned { part.old ≡ line.now → GoodMarks line.now → part.new ≡ joined 32 (turned_marks line.now) }
    ensures size { length part.new ≡ length part.old }
{
    for word in Pieces::of(line, b' ').skip(1) {
        turn_mark(&mut part[word.range()]);
    }
}

// Writes for a fact what the other line's word does not say: a 1, or else the byte for off.
fn turn_flag(other: &[u8], off: u8, word: &mut [u8])
    ensures turned { length other.now ≡ 1 → length word.old ≡ 1
        → word.new ≡ (if holds 49 other.now then off ∷ [] else codes "1") }
    ensures size { length word.new ≡ length word.old }
{
    word.fill(if other == b"1".as_slice() { off } else { b'1' });
}

// Writes for each fact what the other line has not; the part is a copy of the line.
fn turn_flags(line: &[u8], other: &[u8], off: u8, part: &mut [u8])
    requires { length part.old ≡ length line.now }
    ensures turned { part.old ≡ line.now → Flags line.now other.now
        → part.new ≡ joined 32 (turned_flags off line.now other.now) }
    ensures size { length part.new ≡ length part.old }
{
    let pairs = Pieces::of(line, b' ').zip(Pieces::of(other, b' '));
    for (word, beside) in pairs.skip(1) {
        turn_flag(beside.bytes, off, &mut part[word.range()]);
    }
}

// Turns the line with this number; the part is a copy of the line.
fn turn_line(text: &[u8], row: usize, line: &[u8], part: &mut [u8])
    requires { length part.old ≡ length line.now }
    ensures turned { Accepted text.now → row < line_count text.now → line.now ≡ line_at text.now row
        → part.old ≡ line.now → part.new ≡ joined 32 (turned_row text.now row) }
    ensures size { length part.new ≡ length part.old }
{
    match Kind::of_row(row) {
        Kind::Facts => {}
        Kind::Now => turn_flags(line, piece_at(text, b'\n', 2), b'0', part),
        Kind::Wish => turn_flags(line, piece_at(text, b'\n', 1), b'-', part),
        Kind::Action => turn_marks(line, part),
    }
}

// Turns a whole text; the copy holds the text.
pub fn turn_text(text: &[u8], copy: &mut [u8])
    requires { copy.old ≡ text.now }
    ensures turned { Accepted text.now → copy.new ≡ lines_text (turned_rows text.now) }
    ensures size { length copy.new ≡ length copy.old }
{
    let lines = Pieces::of(text, b'\n').enumerate();
    for (row, line) in lines.take(separators(text, b'\n')) {
        turn_line(text, row, line.bytes, &mut copy[line.range()]);
    }
}
