// Reads a text byte by byte, to see whether it is lines of words.
ghost use Rattle.std.specs.Prelude.{◌≡◌, MatchBool, MatchResult};
ghost use Rattle.fault.specs.declared.Layer.TheVariants.{Bytes};
ghost use Rattle.fault.specs.declared.Place.TheVariants.{At};
ghost use Rattle.fault.specs.Refusals.{refusal, refused, spot};
ghost use Rattle.lines.specs.Checked.{Checked};
ghost use Rattle.lines.specs.Coming.{Onward, Stuck};
ghost use Rattle.lines.specs.Grammar.{Lines, WrongAt, word_byte};

use fault::Fault;

// The longest text that is read.
const MAX_LENGTH: usize = 65_535;

// Where the reader stands.
#[derive(Clone, Copy)]
enum State {
    LineStart,
    WordStart,
    InWord,
}

// A reader of lines, one byte at a time.
#[derive(Drop)]
struct LineReader {
    state: State,
}

// Whether a word may have this byte: a to z, 0 to 9 or hyphen.
fn is_word_byte(byte: u8) -> bool
    ensures { result ≡ word_byte byte }
{
    matches!(byte, b'a'..=b'z' | b'0'..=b'9' | b'-')
}

impl LineReader {
    // Takes in one byte more; false where it may not come, and the state is then as before.
    fn feed(&mut self, byte: u8) -> bool
        ensures { MatchBool result
            (Onward self.old.state byte self.new.state)
            (Stuck self.old.state byte × (self.new ≡ self.old)) }
    {
        match (self.state, byte) {
            (_, b) if is_word_byte(b) => {
                self.state = State::InWord;
                true
            }
            (State::InWord, b' ') => {
                self.state = State::WordStart;
                true
            }
            (State::InWord, b'\n') => {
                self.state = State::LineStart;
                true
            }
            _ => false,
        }
    }
}

// Accepts lines; else names the first wrong byte, or the end where the text ends too early.
fn only_lines(text: &[u8]) -> Result<(), Fault>
    ensures { MatchResult result (λ _. Lines text.now)
        (λ f. (refusal f ≡ refused 2 Bytes (At (spot f))) × WrongAt text.now (spot f)) }
{
    let mut reader = LineReader {
        state: State::LineStart,
    };
    for (i, byte) in text.iter().enumerate() {
        if !reader.feed(*byte) {
            return Err(Fault::NotLines(i));
        }
    }
    match reader.state {
        State::LineStart => Ok(()),
        State::WordStart | State::InWord => Err(Fault::NotLines(text.len())),
    }
}

// Accepts lines of an allowed length; else refuses the length, or names the first wrong byte, or the end where the text ends too
// early.
pub fn check_lines(text: &[u8]) -> Result<(), Fault>
    ensures { Checked text.now result }
{
    if text.is_empty() || text.len() > MAX_LENGTH {
        return Err(Fault::TextLength);
    }
    only_lines(text)
}
