// The kinds of a sheet's lines, and which words each allows.
ghost use Rattle.std.specs.Prelude.{◌≡◌};
ghost use Rattle.words.specs.Words.{allowed, allowed_first, allowed_later, kind_of};

use crate::mark::Mark;
use crate::name::is_name;

// What a line tells.
#[derive(Clone, Copy)]
pub enum Kind {
    // the names of the facts
    Facts,
    // which facts hold now
    Now,
    // which facts are to hold
    Wish,
    // an action and its marks
    Action,
}

impl Kind {
    // The kind of the line with this number.
    pub fn of_row(row: usize) -> Kind
        ensures { result ≡ kind_of row }
    {
        match row {
            0 => Kind::Facts,
            1 => Kind::Now,
            2 => Kind::Wish,
            _ => Kind::Action,
        }
    }

    // Whether a line of the kind may have the word for its first.
    fn allows_first(self, word: &[u8]) -> bool
        ensures { result ≡ allowed_first self word.now }
    {
        match self {
            Kind::Facts => matches!(word, b"line"),
            Kind::Now => matches!(word, b"now"),
            Kind::Wish => matches!(word, b"wish"),
            Kind::Action => is_name(word),
        }
    }

    // Whether a line of the kind may have the word for a fact.
    fn allows_later(self, word: &[u8]) -> bool
        ensures { result ≡ allowed_later self word.now }
    {
        match self {
            Kind::Facts => is_name(word),
            Kind::Now => matches!(word, b"0" | b"1"),
            Kind::Wish => matches!(word, b"1" | b"-"),
            Kind::Action => Mark::try_from(word).is_ok(),
        }
    }

    // Whether a line of the kind may have the word in the column.
    pub fn allows(self, column: usize, word: &[u8]) -> bool
        ensures { result ≡ allowed self column word.now }
    {
        if column == 0 {
            self.allows_first(word)
        } else {
            self.allows_later(word)
        }
    }
}
